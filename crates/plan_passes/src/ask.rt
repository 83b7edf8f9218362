// A tree is asked once: its pick is added to the used ids and to the picks of the call.
ghost use Rattle.std.specs.Prelude.{◌≡◌, ◌+◌, ◌*◌, ◌<◌, ◌≤◌, length};
ghost use Rattle.std.specs.declared.option.Option.TheVariants.{Some};
ghost use Rattle.rules.specs.Limit.{limit_of};
ghost use Rattle.rules.specs.Tables.{Tree};
ghost use Rattle.rules.specs.Bounds.{max_l0, max_runs};
ghost use Rattle.rules.specs.Pick.{risen, spec_uses};
ghost use Rattle.rules.specs.Plan.{ask};
ghost use Rattle.rows.specs.InSlices.{trees_in};
ghost use Rattle.tree_pick.specs.Pick.{Bounded, Within};
ghost use Rattle.tree_pick.specs.Asked.{AskedAt};
ghost use Rattle.plan_passes.specs.Picks.{spec_of, SourcesLent, PickWithin};
ghost use Rattle.plan_passes.specs.Ask.{UsedMore, RowOf, AtCapacity, AskedRow, shifted_by, PickedAsked, fresh_after, Kept, Step};

use crate::picks::{PickRow, Picks, SourceKind};
use rows::trees::Trees;
use rules::tables::SourceId;
use rules::{LAST_RUN, Options};
use tree_pick::conflict::{Key, UsedIds};
use tree_pick::pick::Pick;
use tree_pick::tree::AskedTree;

// The sources of a pick and its destination are used.
fn use_pick(used: &mut UsedIds, pick: PickRow, trees: &Trees)
    requires { (used.old.count + pick.count < length used.old.keys.now) × PickWithin pick × SourcesLent (trees_in trees.now) }
    ensures { UsedMore used.old pick.prefix (spec_uses (spec_of (trees_in trees.now) pick)) used.new }
{
    for k in 0..pick.count as usize {
        used.add(pick.prefix, pick.source(k, trees));
    }
    used.add(pick.prefix, SourceId::SortedRun(pick.destination));
}

// A pick, by rows of the whole slices, as a row of the table of picks.
fn row_of(pick: Pick, prefix: u32, fresh: u32) -> PickRow
    requires { Within 64 max_l0 max_runs (Some pick) }
    ensures { RowOf prefix fresh pick result }
{
    match pick {
        Pick::Rows { from, count } => PickRow {
            prefix,
            destination: fresh,
            kind: SourceKind::SstViews,
            from,
            count: count as u32,
        },
        Pick::Window {
            from,
            count,
            destination,
        } => PickRow {
            prefix,
            destination,
            kind: SourceKind::SortedRuns,
            from,
            count: count as u32,
        },
    }
}

// "the fresh number rises by one, stopping at 4,294,967,295"
fn next_fresh(fresh: u32) -> u32
    ensures { result ≡ risen fresh }
{
    if fresh < LAST_RUN {
        return fresh + 1;
    }
    LAST_RUN
}

// The fresh number after a pick: a window has a number of its own.
fn fresh_after(fresh: u32, pick: Pick) -> u32
    ensures { result ≡ fresh_after fresh pick }
{
    match pick {
        Pick::Rows { .. } => next_fresh(fresh),
        Pick::Window { .. } => fresh,
    }
}

// The pick of a tree whose rows start at L0 row `l` and run `r`, by rows of the whole slices.
fn shifted(p: Option<Pick>, l: usize, r: usize) -> Option<Pick>
    requires { (l ≤ max_l0) × (r ≤ max_runs) × Within 64 max_l0 max_runs p }
    ensures { result ≡ shifted_by l r p }
{
    match p? {
        Pick::Rows { from, count } => Some(Pick::Rows {
            from: l + from,
            count,
        }),
        Pick::Window {
            from,
            count,
            destination,
        } => Some(Pick::Window {
            from: r + from,
            count,
            destination,
        }),
    }
}

// The pick of a tree that is asked, from the parts of the slices that are the tree's.
fn pick_asked(
    o: Options,
    used: &[Key],
    fresh: u32,
    tree: AskedTree,
    trees: &Trees,
    chains: &[usize],
) -> Option<Pick>
    requires { Bounded o × AtCapacity (trees_in trees.now) chains.now × AskedRow (limit_of o.threshold) tree (trees_in trees.now) chains.now }
    ensures { PickedAsked (limit_of o.threshold) o used.now fresh tree (trees_in trees.now) result }
{
    let part = tree.part(trees, chains);
    let p = part.pick_next_compaction(o, used, fresh);
    shifted(p, tree.l0_from, tree.run_from)
}

// A tree is asked once: the next fresh number, if it gives a pick. A pick has at most 64 sources, so that 65 rows of used ids
// suffice for it and its destination: the table has 64 times that beside what the jobs use, 5,248 rows in all, and that a row
// is named only once needs no proof. What is asked of and what it changes come one by one: a struct of them would be made for
// each tree, of what a pass holds already.
pub fn ask_tree(
    o: Options,
    used: &mut UsedIds,
    fresh: u32,
    picks: &mut Picks,
    tree: AskedTree,
    trees: &Trees,
    chains: &[usize],
) -> Option<u32>
    requires { Bounded o × (used.old.count + 65 ≤ length used.old.keys.now) × (picks.old.count < length picks.old.rows.now) × AtCapacity (trees_in trees.now) chains.now × AskedRow (limit_of o.threshold) tree (trees_in trees.now) chains.now }
    ensures kept { Kept used.old picks.old result used.new picks.new }
    ensures asked { (t : Tree) → AskedAt tree (trees_in trees.now) t → Step (ask (limit_of o.threshold) o t) (trees_in trees.now) used.old fresh picks.old result used.new picks.new }
{
    match pick_asked(o, used.in_use(), fresh, tree, trees, chains) {
        None => None,
        Some(pick) => {
            let row = row_of(pick, tree.prefix, fresh);
            use_pick(used, row, trees);
            picks.add(row);
            Some(fresh_after(fresh, pick))
        }
    }
}
