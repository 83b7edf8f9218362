// Finish: slatedb's finish_compaction, over the lent tables.
ghost use Rattle.std.specs.Prelude.{◌≡◌, ◌*◌, length};
ghost use Rattle.rules.specs.declared.tables.Ulid.{Ulid};
ghost use Rattle.rules.specs.Lent.{source_count};
ghost use Rattle.rules.specs.Bounds.{trees_refusal, jobs_refusal};
ghost use Rattle.rules.specs.Calls.{finish_call};
ghost use Rattle.rows.specs.InSlices.{trees_in, jobs_in};
ghost use Rattle.tree_rows.specs.Table.{table_in, SameSlices, SameLengths};
ghost use Rattle.finishing.specs.Finding.{job_in, JobFound, TreeFound};
ghost use Rattle.finishing.specs.Flagging.{TreeRoom, JobRoom, Unflagged};
ghost use Rattle.compactor_finish.specs.Ending.{ending_in, SameMarks};
ghost use Rattle.compactor_finish.specs.Finishes.{FinishCase, Leaves};

use crate::ending::{EndingJobs, find};
use finishing::flagging::flag_tree;
use finishing::output::place_output;
use finishing::watermarks::finish_mark;
use rows::jobs::Jobs;
use rows::trees::Trees;
use rules::answers::{Finished, Refusal};
use rules::tables::{Kind, Run, Status, Ulid, Watermark};
use rules::{MAX_L0, MAX_RUNS};
use tree_rows::table::TreeTable;

// What changes in a tree beside the rows that go: the output is put before run `at` of all trees, and the watermark set.
#[derive(Clone, Copy, Debug, PartialEq, Eq)]
pub struct Change {
    pub at: usize,
    pub watermark: Watermark,
}

// "13, 14", or what is to be changed, for a job and its tree. The flags of the rows that go come out in `l0_kept` and `runs_kept`.
fn place_finish(
    trees: &Trees,
    jobs: &Jobs,
    job: usize,
    tree: usize,
    output: Run,
    l0_kept: &mut [u8],
    runs_kept: &mut [u8],
) -> Result<Change, Refusal>
    requires unflagged { Unflagged l0_kept.old runs_kept.old }
    requires room { TreeRoom (trees_in trees.now) tree × JobRoom (jobs_in jobs.now) job × (length trees.now.watermark_marks.now ≡ 64) × (length trees.now.watermarks.now ≡ 128) × (source_count (jobs_in jobs.now) job ≡ 0 → ⊥) }
    ensures { (u : Ulid) → trees_refusal (trees_in trees.now) ≡ 0 → jobs_refusal (jobs_in jobs.now) ≡ 0 → JobFound (jobs_in jobs.now) u 0 job → TreeFound (trees_in trees.now) (job_in (jobs_in jobs.now) job).prefix tree → FinishCase (trees_in trees.now) (jobs_in jobs.now) u output job tree l0_kept.new runs_kept.new result }
{
    flag_tree(trees, jobs, job, tree, Kind::Tiered, l0_kept, runs_kept);
    let part = trees.part(tree);
    let entries = jobs.part(job);
    let first = jobs.sources.at(entries.first);
    let watermark = finish_mark(trees, tree, part, first.id());
    let used = trees.runs_used();
    let at = place_output(trees.run_ids, used, part, runs_kept, output.id)?;
    Ok(Change { at, watermark })
}

// "Finish, any status: remove source L0 rows, source runs and the destination run; put the output before the first old run whose
// id is not above it, else last. .. Status becomes 4."
pub fn finish(
    trees: &mut TreeTable,
    jobs: &mut EndingJobs,
    id: Ulid,
    output: Run,
) -> Result<Finished, Refusal>
    ensures same_trees { SameSlices trees.old trees.new }
    ensures same_jobs { SameMarks jobs.old jobs.new }
    ensures tree_lengths { SameLengths trees.old trees.new }
    ensures mark_lengths { length jobs.new.marks.now ≡ length jobs.old.marks.now }
    ensures leaves { Leaves (finish_call (table_in trees.old) (ending_in jobs.old) id output) (ending_in jobs.old) result (table_in trees.new) (ending_in jobs.new) }
{
    let mut l0_kept = [1; MAX_L0];
    let mut runs_kept = [1; MAX_RUNS];
    let lent = trees.rows();
    let listed = jobs.rows();
    let work = find(&lent, &listed, id, Kind::Tiered)?;
    let job = work.job;
    let Some(tree) = work.tree else {
        jobs.set_status(job, Status::Failed);
        return Ok(Finished::SegmentMissing);
    };
    let change = place_finish(
        &lent,
        &listed,
        job,
        tree,
        output,
        &mut l0_kept,
        &mut runs_kept,
    )?;
    trees.keep_rows(tree, &l0_kept, &runs_kept);
    trees.put_run(tree, change.at, output);
    trees.set_watermark(tree, change.watermark);
    jobs.set_status(job, Status::Completed);
    Ok(Finished::Committed)
}
