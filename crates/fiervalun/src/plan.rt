// Planning, for C.
ghost use Rattle.std.specs.Prelude.{◌≡◌, ℕ, get_or};
ghost use Rattle.rules.specs.Lent.{lent_trees, lent_jobs};
ghost use Rattle.rules.specs.Answers.{plan_answer};
ghost use Rattle.rules.specs.Calls.{plan_call};
ghost use Rattle.size_tiered_compaction.specs.Proposing.{lent_plan};
ghost use Rattle.fiervalun.specs.Promises.{PlanPromise, PlanTold};

use plan_passes::lay::PlanTable;
use rows::jobs::Jobs;
use rows::sources::Sources;
use rows::trees::Trees;
use rules::Options;
use rules::answers::{Planned, Refusal};
use size_tiered_compaction::plan::plan;

// The answer as C has it: the number, and the counts where they belong. "Each returns its number alone".
fn tell(answer: Result<Planned, Refusal>, spec_count: &mut usize, pass_count: &mut usize) -> u32
    ensures { PlanTold (plan_answer answer) result spec_count.old pass_count.old spec_count.new pass_count.new }
{
    match answer {
        Ok(made) => {
            *spec_count = made.specs;
            *pass_count = made.passes;
            0
        }
        Err(refusal) => refusal.number(),
    }
}

#[unsafe(no_mangle)]
pub extern "C" fn fiervalun_plan(
    tree_count: usize,
    trees: &[u32],
    watermark_marks: &[u8],
    watermarks: &[u64],
    l0_ids: &[u64],
    l0_sizes: &[u64],
    run_ids: &[u32],
    run_sizes: &[u64],
    job_count: usize,
    job_ids: &[u64],
    job_marks: &[u8],
    job_specs: &[u32],
    source_marks: &[u8],
    source_runs: &[u32],
    source_views: &[u64],
    options: Options,
    plan_specs: &mut [u32],
    plan_marks: &mut [u8],
    plan_runs: &mut [u32],
    plan_views: &mut [u64],
    spec_count: &mut usize,
    pass_count: &mut usize,
) -> u32
    ensures { PlanPromise (plan_call options (lent_trees tree_count trees.now watermark_marks.now watermarks.now l0_ids.now l0_sizes.now run_ids.now run_sizes.now) (lent_jobs job_count job_ids.now job_marks.now job_specs.now source_marks.now source_runs.now source_views.now) (lent_plan plan_specs.old plan_marks.old plan_runs.old plan_views.old)) result (lent_plan plan_specs.new plan_marks.new plan_runs.new plan_views.new) spec_count.old pass_count.old spec_count.new pass_count.new }
{
    let lent = Trees {
        count: tree_count,
        rows: trees,
        watermark_marks,
        watermarks,
        l0_ids,
        l0_sizes,
        run_ids,
        run_sizes,
    };
    let jobs = Jobs {
        count: job_count,
        ids: job_ids,
        marks: job_marks,
        specs: job_specs,
        sources: Sources {
            marks: source_marks,
            runs: source_runs,
            views: source_views,
        },
    };
    let mut table = PlanTable {
        specs: plan_specs,
        marks: plan_marks,
        runs: plan_runs,
        views: plan_views,
    };
    let answer = plan(&lent, &jobs, options, &mut table);
    tell(answer, spec_count, pass_count)
}
