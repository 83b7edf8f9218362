// Drain: slatedb's finish_drain, over the lent tables.
ghost use Rattle.std.specs.Prelude.{◌≡◌, length};
ghost use Rattle.rules.specs.declared.tables.Ulid.{Ulid};
ghost use Rattle.rules.specs.Bounds.{trees_refusal, jobs_refusal};
ghost use Rattle.rules.specs.Calls.{drain_call};
ghost use Rattle.rows.specs.InSlices.{trees_in, jobs_in};
ghost use Rattle.tree_rows.specs.Table.{table_in, SameSlices, SameLengths};
ghost use Rattle.finishing.specs.Finding.{job_in, JobFound, TreeFound};
ghost use Rattle.finishing.specs.Flagging.{TreeRoom, JobRoom, Unflagged};
ghost use Rattle.compactor_finish.specs.Ending.{ending_in, SameMarks};
ghost use Rattle.compactor_finish.specs.Finishes.{Drains, Leaves};

use crate::ending::{EndingJobs, find};
use finishing::flagging::flag_tree;
use finishing::watermarks::drain_mark;
use rows::jobs::Jobs;
use rows::trees::Trees;
use rules::answers::{Finished, Refusal};
use rules::tables::{Kind, Status, Ulid, Watermark};
use rules::{MAX_L0, MAX_RUNS};
use tree_rows::table::TreeTable;

// The watermark after the drain of a job and its tree. The flags of the rows that go come out in `l0_kept` and `runs_kept`.
fn mark_drain(
    trees: &Trees,
    jobs: &Jobs,
    job: usize,
    tree: usize,
    l0_kept: &mut [u8],
    runs_kept: &mut [u8],
) -> Watermark
    requires unflagged { Unflagged l0_kept.old runs_kept.old }
    requires room { TreeRoom (trees_in trees.now) tree × JobRoom (jobs_in jobs.now) job × (length trees.now.watermark_marks.now ≡ 64) × (length trees.now.watermarks.now ≡ 128) }
    ensures { (u : Ulid) → trees_refusal (trees_in trees.now) ≡ 0 → jobs_refusal (jobs_in jobs.now) ≡ 0 → JobFound (jobs_in jobs.now) u 1 job → TreeFound (trees_in trees.now) (job_in (jobs_in jobs.now) job).prefix tree → Drains (drain_call (trees_in trees.now) (jobs_in jobs.now) u) (trees_in trees.now) (jobs_in jobs.now) job tree result l0_kept.new runs_kept.new }
{
    flag_tree(trees, jobs, job, tree, Kind::Drain, l0_kept, runs_kept);
    drain_mark(trees, tree, trees.part(tree), l0_kept)
}

// "Drain: the watermark moves to the first L0 row in table order that is a source, if any; source rows go; status 4."
pub fn drain(trees: &mut TreeTable, jobs: &mut EndingJobs, id: Ulid) -> Result<Finished, Refusal>
    ensures same_trees { SameSlices trees.old trees.new }
    ensures same_jobs { SameMarks jobs.old jobs.new }
    ensures tree_lengths { SameLengths trees.old trees.new }
    ensures mark_lengths { length jobs.new.marks.now ≡ length jobs.old.marks.now }
    ensures leaves { Leaves (drain_call (table_in trees.old) (ending_in jobs.old) id) (ending_in jobs.old) result (table_in trees.new) (ending_in jobs.new) }
{
    let mut l0_kept = [1; MAX_L0];
    let mut runs_kept = [1; MAX_RUNS];
    let lent = trees.rows();
    let listed = jobs.rows();
    let work = find(&lent, &listed, id, Kind::Drain)?;
    let job = work.job;
    let Some(tree) = work.tree else {
        jobs.set_status(job, Status::Failed);
        return Ok(Finished::SegmentMissing);
    };
    let watermark = mark_drain(&lent, &listed, job, tree, &mut l0_kept, &mut runs_kept);
    trees.keep_rows(tree, &l0_kept, &runs_kept);
    trees.set_watermark(tree, watermark);
    jobs.set_status(job, Status::Completed);
    Ok(Finished::Committed)
}
