// Adding, merging and retention, for C. The job count stands behind a pointer, and is changed where the table is.
ghost use Rattle.rules.specs.Answers.{jobs_answer};
ghost use Rattle.rules.specs.Lent.{lent_jobs};
ghost use Rattle.rules.specs.Calls.{add_call, merge_call, retain_call};
ghost use Rattle.job_rows.specs.Slices.{lent_job};
ghost use Rattle.fiervalun.specs.Promises.{JobsPromise, JobsTold};

use compactor_state::add::add;
use compactor_state::merge::merge;
use compactor_state::retain::retain;
use job_rows::table::{JobTable, NewJob};
use rows::jobs::Jobs;
use rows::sources::Sources;
use rules::answers::Refusal;
use rules::tables::Ulid;

// The answer as C has it: the number, and the new count where the work is done. "Each returns its number alone", and where it is
// refused nothing is written, not even the count that stood there.
fn tell(answer: Result<(), Refusal>, count: usize, job_count: &mut usize) -> u32
    ensures { JobsTold (jobs_answer answer count) result job_count.old job_count.new }
{
    match answer {
        Ok(()) => {
            *job_count = count;
            0
        }
        Err(refusal) => refusal.number(),
    }
}

#[unsafe(no_mangle)]
pub extern "C" fn fiervalun_add(
    job_count: &mut usize,
    job_ids: &mut [u64],
    job_marks: &mut [u8],
    job_specs: &mut [u32],
    source_marks: &mut [u8],
    source_runs: &mut [u32],
    source_views: &mut [u64],
    id_high: u64,
    id_low: u64,
    status: u8,
    drain: u8,
    prefix: u32,
    destination: u32,
    marks: &[u8],
    runs: &[u32],
    views: &[u64],
) -> u32
    ensures { JobsPromise (add_call (lent_jobs job_count.old job_ids.old job_marks.old job_specs.old source_marks.old source_runs.old source_views.old) (lent_job id_high id_low status drain prefix destination marks.now runs.now views.now)) result job_count.old job_count.new job_ids.new job_marks.new job_specs.new source_marks.new source_runs.new source_views.new }
{
    let mut jobs = JobTable {
        count: *job_count,
        ids: job_ids,
        marks: job_marks,
        specs: job_specs,
        source_marks,
        source_runs,
        source_views,
    };
    let job = NewJob {
        id: Ulid {
            high: id_high,
            low: id_low,
        },
        status,
        drain,
        prefix,
        destination,
        sources: Sources { marks, runs, views },
    };
    let answer = add(&mut jobs, &job);
    tell(answer, jobs.count, job_count)
}

#[unsafe(no_mangle)]
pub extern "C" fn fiervalun_merge(
    job_count: &mut usize,
    job_ids: &mut [u64],
    job_marks: &mut [u8],
    job_specs: &mut [u32],
    source_marks: &mut [u8],
    source_runs: &mut [u32],
    source_views: &mut [u64],
    remote_count: usize,
    remote_ids: &[u64],
    remote_marks: &[u8],
    remote_specs: &[u32],
    remote_source_marks: &[u8],
    remote_source_runs: &[u32],
    remote_source_views: &[u64],
) -> u32
    ensures { JobsPromise (merge_call (lent_jobs job_count.old job_ids.old job_marks.old job_specs.old source_marks.old source_runs.old source_views.old) (lent_jobs remote_count remote_ids.now remote_marks.now remote_specs.now remote_source_marks.now remote_source_runs.now remote_source_views.now)) result job_count.old job_count.new job_ids.new job_marks.new job_specs.new source_marks.new source_runs.new source_views.new }
{
    let mut jobs = JobTable {
        count: *job_count,
        ids: job_ids,
        marks: job_marks,
        specs: job_specs,
        source_marks,
        source_runs,
        source_views,
    };
    let remote = Jobs {
        count: remote_count,
        ids: remote_ids,
        marks: remote_marks,
        specs: remote_specs,
        sources: Sources {
            marks: remote_source_marks,
            runs: remote_source_runs,
            views: remote_source_views,
        },
    };
    let answer = merge(&mut jobs, &remote);
    tell(answer, jobs.count, job_count)
}

#[unsafe(no_mangle)]
pub extern "C" fn fiervalun_retain(
    job_count: &mut usize,
    job_ids: &mut [u64],
    job_marks: &mut [u8],
    job_specs: &mut [u32],
    source_marks: &mut [u8],
    source_runs: &mut [u32],
    source_views: &mut [u64],
) -> u32
    ensures { JobsPromise (retain_call (lent_jobs job_count.old job_ids.old job_marks.old job_specs.old source_marks.old source_runs.old source_views.old)) result job_count.old job_count.new job_ids.new job_marks.new job_specs.new source_marks.new source_runs.new source_views.new }
{
    let mut jobs = JobTable {
        count: *job_count,
        ids: job_ids,
        marks: job_marks,
        specs: job_specs,
        source_marks,
        source_runs,
        source_views,
    };
    let answer = retain(&mut jobs);
    tell(answer, jobs.count, job_count)
}
