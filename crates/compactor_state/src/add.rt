// Adding a job: slatedb's add_compaction.
ghost use Rattle.std.specs.Prelude.{◌≡◌, not, ◌*◌, ◌≤◌, length};
ghost use Rattle.std.specs.Result.{IfOk};
ghost use Rattle.rules.specs.Answers.{refused};
ghost use Rattle.rules.specs.Tables.{same_ulid};
ghost use Rattle.rules.specs.Lent.{jobs_of};
ghost use Rattle.rules.specs.Jobs.{job_misshapen, add_refusal};
ghost use Rattle.rules.specs.Calls.{add_call};
ghost use Rattle.rows.specs.InSlices.{jobs_in};
ghost use Rattle.merging.specs.Merge.{Flags};
ghost use Rattle.job_rows.specs.Table.{table_in, job_in, SameTables, SameLengths};
ghost use Rattle.compactor_state.specs.AddCall.{refused_first, refused_full};
ghost use Rattle.compactor_state.specs.Answers.{Answers};

use crate::adding::clashes;
use job_rows::table::{JobTable, NewJob};
use merging::room::{exceeds, flagged_entries, flagged_jobs};
use rows::ids::ulid;
use rows::jobs::Jobs;
use rules::MAX_SOURCES;
use rules::answers::Refusal;
use rules::tables::{Kind, Status, Ulid};

// "status above 5 or a mark above 1, a job to be added .. included": it has none, and its lengths agree.
fn job_good(job: &NewJob) -> bool
    ensures { result ≡ not (job_misshapen (job_in job.now)) }
{
    if job.status > Status::Failed as u8 {
        return false;
    }
    if job.drain > Kind::Drain as u8 {
        return false;
    }
    job.sources.are_good()
}

// What is refused before the room is looked at: "Checks run 1, 2", then 10.
fn check_first(jobs: &Jobs, job: &NewJob) -> Result<(), Refusal>
    ensures { refused result ≡ refused_first (jobs_in jobs.now) (job_in job.now) }
{
    jobs.check()?;
    if !job_good(job) {
        return Err(Refusal::Misshapen);
    }
    if clashes(jobs, job) {
        return Err(Refusal::Clashes);
    }
    Ok(())
}

// The flags of the jobs of other ids: "Adding an id already present replaces that record."
fn mark_others(jobs: &Jobs, id: Ulid) -> [u8; 64]
    requires { (jobs.now.count ≤ 64) × (2 * jobs.now.count ≤ length jobs.now.ids.now) }
    ensures { Flags (λ k. not (same_ulid k.id id)) (jobs_of (jobs_in jobs.now)) result }
{
    let mut flags = [0; 64];
    for i in 0..jobs.count {
        flags[i] = (ulid(jobs.ids, 2 * i) != id) as u8;
    }
    flags
}

// 14: the jobs that stay and one of `n` entries exceed "64 jobs, 1,024 entries". `n` may be as large as it likes.
#[tactic(auto, using(crate::proofs::AddCall::full_beyond))]
fn check_room(staying: &[u8; 64], jobs: &Jobs, n: usize) -> Result<(), Refusal>
    requires { (jobs.now.count ≤ 64) × (3 * jobs.now.count ≤ length jobs.now.specs.now) }
    ensures { refused result ≡ refused_full staying.now jobs.now.specs.now jobs.now.count n }
{
    if MAX_SOURCES < n {
        return Err(Refusal::TableFull);
    }
    let count = flagged_jobs(staying, jobs.count);
    let entries = flagged_entries(staying, jobs);
    exceeds(count + 1, entries + n)
}

// All that is to be known before the first byte is written: the flags of the jobs that stay.
fn plan_add(jobs: &Jobs, job: &NewJob) -> Result<[u8; 64], Refusal>
    ensures refused { refused result ≡ add_refusal (jobs_in jobs.now) (job_in job.now) }
    ensures planned { IfOk result (λ staying. Flags (λ k. not (same_ulid k.id job.now.id)) (jobs_of (jobs_in jobs.now)) staying) }
{
    check_first(jobs, job)?;
    let staying = mark_others(jobs, job.id);
    check_room(&staying, jobs, job.sources.marks.len())?;
    Ok(staying)
}

// "Adding an id already present replaces that record."
pub fn add(jobs: &mut JobTable, job: &NewJob) -> Result<(), Refusal>
    ensures same { SameTables jobs.old jobs.new }
    ensures lengths { SameLengths jobs.old jobs.new }
    ensures answers { Answers (add_call (table_in jobs.old) (job_in job.now)) result (table_in jobs.new) }
{
    let staying = plan_add(&jobs.rows(), job)?;
    jobs.keep(&staying);
    jobs.insert(job);
    Ok(())
}
