// Run windows: the second step of slatedb's pick_next_compaction.
ghost use Rattle.std.specs.Prelude.{◌≡◌, ◌<◌};
ghost use Rattle.rules.specs.Lists.{last_of};
ghost use Rattle.rules.specs.Limit.{limit_of};
ghost use Rattle.rules.specs.Windows.{window};
ghost use Rattle.tree_pick.specs.Conflict.{used_in};
ghost use Rattle.tree_pick.specs.TreeState.{TreeState};
ghost use Rattle.tree_pick.specs.Window.{Found};

use crate::conflict::Key;
use crate::tree::TreePart;
use rules::Options;

// Where a window lies among the run ids of a tree.
#[derive(Clone, Copy, PartialEq, Eq, Debug)]
pub struct Window {
    pub from: usize,
    pub count: usize,
}

impl TreePart<'_, '_> {
    // "The pick is the least i and for it the greatest k.", of at least min runs.
    fn first_window(&self, o: Options, used: &[Key]) -> Option<Window>
        requires { (0 < o.min) × TreeState (limit_of o.threshold) self.now }
        ensures { Found self.now.run_ids.now result (window (limit_of o.threshold) o.min o.max (used_in used.now self.now.prefix) self.now.run_ids.now self.now.run_sizes.now) (window (limit_of o.threshold) o.min o.max (used_in used.now self.now.prefix) self.now.run_ids.now self.now.run_sizes.now) }
    {
        for i in 0..self.run_ids.len() {
            let k = self.build_checked_run(o, used, i);
            if k >= o.min as usize {
                return Some(Window { from: i, count: k });
            }
        }
        None
    }

    // Where the runs lie that are merged: "Should k exceed max, the front is dropped." (clamp_max)
    pub fn find_window(&self, o: Options, used: &[Key]) -> Option<Window>
        requires { (0 < o.min) × TreeState (limit_of o.threshold) self.now }
        ensures { Found self.now.run_ids.now result (window (limit_of o.threshold) o.min o.max (used_in used.now self.now.prefix) self.now.run_ids.now self.now.run_sizes.now) (last_of o.max (window (limit_of o.threshold) o.min o.max (used_in used.now self.now.prefix) self.now.run_ids.now self.now.run_sizes.now)) }
    {
        let w = self.first_window(o, used)?;
        let count = w.count.min(o.max as usize);
        Some(Window {
            from: w.from + (w.count - count),
            count,
        })
    }
}

impl<'i> TreePart<'i, '_> {
    // "The sources of a run window are handed back as a part of the caller's run ids.": an empty part where there is none.
    pub fn pick_window(&self, o: Options, used: &[Key]) -> &'i [u32]
        requires { (0 < o.min) × TreeState (limit_of o.threshold) self.now }
        ensures { result.now ≡ last_of o.max (window (limit_of o.threshold) o.min o.max (used_in used.now self.now.prefix) self.now.run_ids.now self.now.run_sizes.now) }
    {
        match self.find_window(o, used) {
            Some(w) => &self.run_ids[w.from..w.from + w.count],
            None => &self.run_ids[..0],
        }
    }
}
