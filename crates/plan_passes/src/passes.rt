// The passes of a planning call: the round-robin loop of slatedb's propose, once the trees are in order.
ghost use Rattle.std.specs.Prelude.{◌≡◌, List, ℕ, ◌+◌, ◌*◌, ◌<◌, ◌≤◌, length, get_or};
ghost use Rattle.rules.specs.Limit.{limit_of};
ghost use Rattle.rules.specs.Tables.{Tree};
ghost use Rattle.rules.specs.Plan.{passes_from};
ghost use Rattle.tree_pick.specs.declared.tree.AskedTree.{AskedTree};
ghost use Rattle.rows.specs.InSlices.{trees_in};
ghost use Rattle.tree_pick.specs.Pick.{Bounded};
ghost use Rattle.plan_passes.specs.Picks.{picks_in, emptied, PicksWithin};
ghost use Rattle.plan_passes.specs.Ask.{AtCapacity, AskedRow, state_in};
ghost use Rattle.plan_passes.specs.Passes.{AskedAll, Made, Plans};

use crate::ask::ask_tree;
use crate::picks::Picks;
use rows::trees::Trees;
use rules::Options;
use tree_pick::conflict::UsedIds;
use tree_pick::tree::AskedTree;

// "Each pass asks every tree once; the pass stops at the first tree met with no slot left. Planning ends after a pass
// without a pick.": "the number of passes that picked something". Every slot has room for a pick: 65 rows of used ids and a
// row of picks.
pub fn plan_passes(
    o: Options,
    slots: usize,
    used: &mut UsedIds,
    fresh: u32,
    picks: &mut Picks,
    asked: &[AskedTree],
    trees: &Trees,
    chains: &[usize],
) -> usize
    requires { Bounded o × (used.old.count + 65 * slots ≤ length used.old.keys.now) × (slots ≤ length picks.old.rows.now) × AtCapacity (trees_in trees.now) chains.now × ((k : ℕ) (d : AskedTree) → k < length asked.now → AskedRow (limit_of o.threshold) (get_or asked.now k d) (trees_in trees.now) chains.now) }
    ensures made { Made used.old picks.old slots used.new picks.new }
    ensures planned { (ts : List Tree) → AskedAll asked.now (trees_in trees.now) ts → Plans (passes_from (limit_of o.threshold) o ts slots 0 (state_in (trees_in trees.now) used.old slots fresh (emptied picks.old))) (trees_in trees.now) result picks.new }
{
    picks.count = 0;
    let mut left = slots;
    let mut next = fresh;
    let mut passes = 0;
    // A pass that picks nothing ends it and no count does: 01 wants these loops and the labelled break.
    'planning: loop {
        let before = picks.count;
        'trees: for i in 0..asked.len() {
            if left == 0 {
                break 'trees;
            }
            if let Some(after) = ask_tree(o, used, next, picks, asked[i], trees, chains) {
                next = after;
                left -= 1;
            }
        }
        if picks.count == before {
            break 'planning;
        }
        passes += 1;
    }
    passes
}
