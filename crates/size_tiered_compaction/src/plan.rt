// Planning: slatedb's propose, from the lent tables to the lent plan.
ghost use Rattle.std.specs.Prelude.{◌≡◌, ◌||◌, ◌*◌, ◌≤◌, ltb, length};
ghost use Rattle.rules.specs.Lent.{l0_used, runs_used};
ghost use Rattle.rules.specs.Bounds.{max_concurrent};
ghost use Rattle.rules.specs.Planning.{spec_places, source_places, plan_refusal};
ghost use Rattle.rules.specs.Answers.{refused, plan_answer};
ghost use Rattle.rules.specs.Calls.{plan_call};
ghost use Rattle.rows.specs.InSlices.{trees_in, jobs_in};
ghost use Rattle.plan_passes.specs.Lay.{plan_in, SameTable, SameLengths};
ghost use Rattle.size_tiered_compaction.specs.Proposing.{plan_result, planning_refusal, Ready, Proposes};

use plan_passes::lay::PlanTable;
use plan_passes::passes::plan_passes;
use plan_passes::picks::{PickRow, Picks, SourceKind};
use plan_start::chains::fill_chains;
use plan_start::fresh::first_fresh;
use plan_start::order::order_trees;
use plan_start::refusals::{bad_options, sizes_over};
use plan_start::slots::free_slots;
use plan_start::used::fill_used;
use rows::jobs::Jobs;
use rows::tables::check_tables;
use rows::trees::Trees;
use rules::answers::{Planned, Refusal};
use rules::tables::SourceId;
use rules::{MAX_CONCURRENT, MAX_JOBS, MAX_RUNS, MAX_SOURCES, MAX_TREES, Options};
use tree_pick::conflict::{Key, UsedIds};
use tree_pick::tree::AskedTree;

// "lent plan has fewer spec places than F or fewer source places than L0 rows plus runs": a spec has three numbers, a source a
// mark, a run and the two words of a view.
fn too_small(plan: &PlanTable, free: usize, rows: usize) -> bool
    ensures { result ≡ ltb (spec_places (plan_in plan.now)) free || ltb (source_places (plan_in plan.now)) rows }
{
    plan.specs.len() / 3 < free
        || plan.marks.len() < rows
        || plan.runs.len() < rows
        || plan.views.len() / 2 < rows
}

// "Planning: 3, 4, 5.", of tables that are not refused 1 or 2. Of the plan only its lengths are looked at.
#[tactic(auto, unfolding(rules::specs::Lent::l0_used, rules::specs::Lent::runs_used))]
fn check_planning(o: Options, trees: &Trees, jobs: &Jobs, plan: &PlanTable) -> Result<(), Refusal>
    requires tables { (trees.now.count ≤ 32) × (length trees.now.rows.now ≡ 96) × (length trees.now.l0_sizes.now ≡ 512) × (length trees.now.run_sizes.now ≡ 512) × (jobs.now.count ≤ 64) × (length jobs.now.marks.now ≡ 128) }
    requires row_counts { (l0_used (trees_in trees.now) ≤ 512) × (runs_used (trees_in trees.now) ≤ 512) }
    ensures { refused result ≡ planning_refusal o (trees_in trees.now) (jobs_in jobs.now) (plan_in plan.now) }
{
    if bad_options(o) {
        return Err(Refusal::BadOptions);
    }
    if sizes_over(trees) {
        return Err(Refusal::SizesTooLarge);
    }
    let free = free_slots(o, jobs);
    if too_small(plan, free, trees.l0_used() + trees.runs_used()) {
        return Err(Refusal::PlanTooSmall);
    }
    Ok(())
}

// "Checks run 1, 2, then those of the call."
#[tactic(auto, using(crate::proofs::PlanRefused::many_refused))]
fn check_plan(o: Options, trees: &Trees, jobs: &Jobs, plan: &PlanTable) -> Result<(), Refusal>
    ensures { refused result ≡ plan_refusal o (trees_in trees.now) (jobs_in jobs.now) (plan_in plan.now) }
{
    if MAX_CONCURRENT < o.concurrent {
        return Err(Refusal::OutOfBounds);
    }
    check_tables(trees, jobs)?;
    check_planning(o, trees, jobs, plan)
}

// A free slot gives a pick at most, and there are "at most 64 concurrent jobs".
const MAX_PICKS: usize = 64;

// A row of used ids for each source and each destination of the jobs, and for the 64 sources and the destination of each pick.
const USED_ROWS: usize = MAX_SOURCES + MAX_JOBS + 65 * MAX_PICKS;

// What stands in a row that is not in use.
const NO_TREE: AskedTree = AskedTree {
    prefix: 0,
    l0_from: 0,
    l0_count: 0,
    run_from: 0,
    run_count: 0,
};

const NO_KEY: Key = Key {
    prefix: 0,
    id: SourceId::SortedRun(0),
};

const NO_PICK: PickRow = PickRow {
    prefix: 0,
    destination: 0,
    kind: SourceKind::SortedRuns,
    from: 0,
    count: 0,
};

// The picks of a call that is not refused, and how many passes picked something, from the tables that the passes ask.
fn propose(o: Options, trees: &Trees, jobs: &Jobs, picks: &mut Picks) -> usize
    requires { (length picks.old.rows.now ≡ max_concurrent) × Ready o (trees_in trees.now) (jobs_in jobs.now) }
    ensures same { picks.new.rows.ghost_name ≡ picks.old.rows.ghost_name }
    ensures proposed { Proposes o (trees_in trees.now) (jobs_in jobs.now) result picks.new }
{
    let mut asked = [NO_TREE; MAX_TREES];
    let mut chains = [0usize; MAX_RUNS];
    let mut keys = [NO_KEY; USED_ROWS];
    let mut used = UsedIds {
        keys: &mut keys,
        count: 0,
    };
    order_trees(trees, &mut asked);
    fill_chains(o, trees, &mut chains);
    fill_used(jobs, &mut used);
    let slots = free_slots(o, jobs);
    let fresh = first_fresh(trees, trees.runs_used(), jobs);
    let asked = &asked[..trees.count];
    plan_passes(o, slots, &mut used, fresh, picks, asked, trees, &chains)
}

// "One planning call": the plan is laid into the lent slices, and the answer has the number of its specs and of the passes
// that picked something.
pub fn plan(
    trees: &Trees,
    jobs: &Jobs,
    o: Options,
    plan: &mut PlanTable,
) -> Result<Planned, Refusal>
    ensures same { SameTable plan.old plan.new }
    ensures lengths { SameLengths plan.old plan.new }
    ensures made { plan_result (plan_answer result) (plan_in plan.new) ≡ plan_call o (trees_in trees.now) (jobs_in jobs.now) (plan_in plan.old) }
{
    check_plan(o, trees, jobs, plan)?;
    let mut rows = [NO_PICK; MAX_PICKS];
    let mut picks = Picks {
        rows: &mut rows,
        count: 0,
    };
    let passes = propose(o, trees, jobs, &mut picks);
    plan.lay_specs(picks.in_use());
    plan.lay_sources(picks.in_use(), trees);
    Ok(Planned {
        specs: picks.count,
        passes,
    })
}
