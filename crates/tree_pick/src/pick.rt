// One pick from a tree: slatedb's pick_next_compaction, over the parts of the lent slices that are the tree's.
ghost use Rattle.std.specs.Prelude.{◌≡◌, not, ◌-◌, ◌*◌, ◌^◌, ◌<◌, ◌≤◌, length, sum};
ghost use Rattle.rules.specs.Lists.{all, total};
ghost use Rattle.rules.specs.Limit.{limit_of};
ghost use Rattle.rules.specs.Tables.{Tree};
ghost use Rattle.rules.specs.Pick.{takes_rows};
ghost use Rattle.tree_pick.specs.Backpressure.{Chains};
ghost use Rattle.tree_pick.specs.Conflict.{used_in};
ghost use Rattle.tree_pick.specs.Pick.{L0State, TreeIn, views_in, Bounded, PickedFrom};
ghost use Rattle.tree_pick.specs.TreeState.{TreeState};

use crate::conflict::{Key, is_used};
use crate::tree::TreePart;
use rows::ids::ulid;
use rules::Options;
use rules::tables::SourceId;

// What a tree gives when it is asked, its sources by their rows in the tree.
#[derive(Clone, Copy, PartialEq, Eq, Debug)]
pub enum Pick {
    Rows {
        from: usize,
        count: usize,
    },
    Window {
        from: usize,
        count: usize,
        destination: u32,
    },
}

// "take the last max of them (the oldest)": where these start among `count` L0 rows.
fn oldest_from(o: Options, count: usize) -> usize
    ensures { result ≡ count - o.max }
{
    count.saturating_sub(o.max as usize)
}

fn size_of(sizes: &[u64]) -> u64
    requires { sum sizes.now < 2 ^ 64 }
    ensures { result ≡ sum sizes.now }
{
    sizes.iter().sum()
}

impl TreePart<'_, '_> {
    // Whether no view from L0 row `from` on is used.
    fn views_free(&self, used: &[Key], from: usize) -> bool
        requires { 4 * length self.now.l0_sizes.now ≤ length self.now.l0_ids.now }
        ensures { result ≡ all (λ x. not (used_in used.now self.now.prefix x)) (views_in self.now.l0_ids.now from (length self.now.l0_sizes.now - from)) }
    {
        for i in from..self.l0_sizes.len() {
            let view = ulid(self.l0_ids, 4 * i);
            if is_used(used, self.prefix, SourceId::SstView(view)) {
                return false;
            }
        }
        true
    }

    // "If L0 rows are at least min, take the last max of them (the oldest), in table order; destination the fresh number, next
    // run the tree's first run.": whether this passes.
    fn takes_rows(&self, o: Options, used: &[Key], fresh: u32) -> bool
        requires { L0State self.now × Chains (limit_of o.threshold) self.now.run_sizes.now self.now.chains.now }
        ensures { (t : Tree) → TreeIn self.now t → result ≡ takes_rows (limit_of o.threshold) o (used_in used.now self.now.prefix) fresh t }
    {
        let count = self.l0_sizes.len();
        if count < o.min as usize {
            return false;
        }
        let from = oldest_from(o, count);
        if !self.views_free(used, from) {
            return false;
        }
        if is_used(used, self.prefix, SourceId::SortedRun(fresh)) {
            return false;
        }
        !self.held_back(o, size_of(&self.l0_sizes[from..]), 0)
    }

    // "One pick from a tree": step 1, "Otherwise" step 2, whose "Destination: the last run."
    pub fn pick_next_compaction(&self, o: Options, used: &[Key], fresh: u32) -> Option<Pick>
        requires { Bounded o × L0State self.now × TreeState (limit_of o.threshold) self.now }
        ensures { PickedFrom (limit_of o.threshold) o (used_in used.now self.now.prefix) fresh self.now result }
    {
        if self.takes_rows(o, used, fresh) {
            let rows = self.l0_sizes.len();
            let from = oldest_from(o, rows);
            return Some(Pick::Rows {
                from,
                count: rows - from,
            });
        }
        let w = self.find_window(o, used)?;
        Some(Pick::Window {
            from: w.from,
            count: w.count,
            destination: self.run_ids[w.from + (w.count - 1)],
        })
    }
}
