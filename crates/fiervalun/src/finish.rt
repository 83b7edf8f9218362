// Finish and drain, for C.
ghost use Rattle.std.specs.Prelude.{◌≡◌};
ghost use Rattle.rules.specs.Lent.{lent_trees, lent_jobs};
ghost use Rattle.rules.specs.Answers.{finish_answer};
ghost use Rattle.rules.specs.Calls.{finish_call, drain_call};
ghost use Rattle.fiervalun.specs.Promises.{FinishPromise, FinishTold};

use compactor_finish::drain::drain;
use compactor_finish::ending::EndingJobs;
use compactor_finish::finish::finish;
use rules::answers::{Finished, Refusal};
use rules::tables::{Run, Ulid};
use tree_rows::table::TreeTable;

// The answer as C has it: the number, and 0 for a commit or 1 for a missing segment where it belongs.
fn tell(answer: Result<Finished, Refusal>, outcome: &mut u32) -> u32
    ensures { FinishTold (finish_answer answer) result outcome.old outcome.new }
{
    match answer {
        Ok(Finished::Committed) => {
            *outcome = 0;
            0
        }
        Ok(Finished::SegmentMissing) => {
            *outcome = 1;
            0
        }
        Err(refusal) => refusal.number(),
    }
}

#[unsafe(no_mangle)]
pub extern "C" fn fiervalun_finish(
    tree_count: usize,
    trees: &mut [u32],
    watermark_marks: &mut [u8],
    watermarks: &mut [u64],
    l0_ids: &mut [u64],
    l0_sizes: &mut [u64],
    run_ids: &mut [u32],
    run_sizes: &mut [u64],
    job_count: usize,
    job_ids: &[u64],
    job_marks: &mut [u8],
    job_specs: &[u32],
    source_marks: &[u8],
    source_runs: &[u32],
    source_views: &[u64],
    id_high: u64,
    id_low: u64,
    output: u32,
    output_size: u64,
    outcome: &mut u32,
) -> u32
    ensures { FinishPromise (finish_call (lent_trees tree_count trees.old watermark_marks.old watermarks.old l0_ids.old l0_sizes.old run_ids.old run_sizes.old) (lent_jobs job_count job_ids.now job_marks.old job_specs.now source_marks.now source_runs.now source_views.now) (record { high = id_high; low = id_low }) (record { id = output; size = output_size })) result outcome.old outcome.new trees.new watermark_marks.new watermarks.new l0_ids.new l0_sizes.new run_ids.new run_sizes.new job_marks.new }
{
    let mut table = TreeTable {
        count: tree_count,
        rows: trees,
        watermark_marks,
        watermarks,
        l0_ids,
        l0_sizes,
        run_ids,
        run_sizes,
    };
    let mut jobs = EndingJobs {
        count: job_count,
        ids: job_ids,
        marks: job_marks,
        specs: job_specs,
        source_marks,
        source_runs,
        source_views,
    };
    let id = Ulid {
        high: id_high,
        low: id_low,
    };
    let run = Run {
        id: output,
        size: output_size,
    };
    let answer = finish(&mut table, &mut jobs, id, run);
    tell(answer, outcome)
}

#[unsafe(no_mangle)]
pub extern "C" fn fiervalun_drain(
    tree_count: usize,
    trees: &mut [u32],
    watermark_marks: &mut [u8],
    watermarks: &mut [u64],
    l0_ids: &mut [u64],
    l0_sizes: &mut [u64],
    run_ids: &mut [u32],
    run_sizes: &mut [u64],
    job_count: usize,
    job_ids: &[u64],
    job_marks: &mut [u8],
    job_specs: &[u32],
    source_marks: &[u8],
    source_runs: &[u32],
    source_views: &[u64],
    id_high: u64,
    id_low: u64,
    outcome: &mut u32,
) -> u32
    ensures { FinishPromise (drain_call (lent_trees tree_count trees.old watermark_marks.old watermarks.old l0_ids.old l0_sizes.old run_ids.old run_sizes.old) (lent_jobs job_count job_ids.now job_marks.old job_specs.now source_marks.now source_runs.now source_views.now) (record { high = id_high; low = id_low })) result outcome.old outcome.new trees.new watermark_marks.new watermarks.new l0_ids.new l0_sizes.new run_ids.new run_sizes.new job_marks.new }
{
    let mut table = TreeTable {
        count: tree_count,
        rows: trees,
        watermark_marks,
        watermarks,
        l0_ids,
        l0_sizes,
        run_ids,
        run_sizes,
    };
    let mut jobs = EndingJobs {
        count: job_count,
        ids: job_ids,
        marks: job_marks,
        specs: job_specs,
        source_marks,
        source_runs,
        source_views,
    };
    let id = Ulid {
        high: id_high,
        low: id_low,
    };
    let answer = drain(&mut table, &mut jobs, id);
    tell(answer, outcome)
}
