// Chains: slatedb's build_compactable_run, whose "`Option<&TreeState>` becomes two builders, checked and unchecked".
ghost use Rattle.std.specs.Prelude.{◌≡◌, [], ◌∷◌, ◌+◌, ◌<◌, ◌≤◌, length, get_or, drop};
ghost use Rattle.rules.specs.Limit.{limit_of};
ghost use Rattle.rules.specs.declared.tables.SourceId.TheVariants.{SortedRun};
ghost use Rattle.rules.specs.Chain.{chain};
ghost use Rattle.rules.specs.Windows.{passes, lasting, greatest};
ghost use Rattle.tree_pick.specs.Conflict.{used_in};
ghost use Rattle.tree_pick.specs.Backpressure.{Chains};
ghost use Rattle.tree_pick.specs.TreeState.{TreeState};

use crate::conflict::{Key, is_used};
use crate::tree::TreePart;
use rules::Options;
use rules::tables::SourceId;

// "Chain from run i: take run i; take each next run while its size is at most limit(smallest size taken so far).": how many
// runs the chain from run `from` takes, used ids ignored. The unchecked builder.
pub fn build_compactable_run(o: Options, sizes: &[u64], from: usize) -> usize
    requires { from ≤ length sizes.now }
    ensures { result ≡ chain (limit_of o.threshold) (drop from sizes.now) }
{
    if from == sizes.len() {
        return 0;
    }
    let mut least = sizes[from];
    for i in from + 1..sizes.len() {
        if sizes[i] > size_limit::limit(o.threshold, least) {
            return i - from;
        }
        least = least.min(sizes[i]);
    }
    sizes.len() - from
}

impl TreePart<'_, '_> {
    // Whether a beginning of this size passes that ends with run `i`, all but that run having passed before: it is its
    // destination too, so that one look-up serves both (TreeState's check_compaction).
    fn check_beginning(&self, o: Options, used: &[Key], i: usize, size: u64) -> bool
        requires { (i < length self.now.run_ids.now) × (i < length self.now.run_sizes.now) × Chains (limit_of o.threshold) self.now.run_sizes.now self.now.chains.now }
        ensures { result ≡ passes (limit_of o.threshold) o.max (used_in used.now self.now.prefix) (SortedRun (get_or self.now.run_ids.now i 0) ∷ []) (get_or self.now.run_ids.now i 0) size (drop (i + 1) self.now.run_sizes.now) }
    {
        if is_used(used, self.prefix, SourceId::SortedRun(self.run_ids[i])) {
            return false;
        }
        !self.held_back(o, size, i + 1)
    }

    // The greatest length of a window at run `from`: "it lies within the chain from i, and each of its beginnings of length 1
    // to k passes". The checked builder: the first beginning that fails ends it, "Trying a longer window after a shorter
    // beginning failed" is a mistake.
    pub fn build_checked_run(&self, o: Options, used: &[Key], from: usize) -> usize
        requires { (from < length self.now.run_ids.now) × TreeState (limit_of o.threshold) self.now }
        ensures { result ≡ greatest (lasting (limit_of o.threshold) o.max (used_in used.now self.now.prefix) (drop from self.now.run_ids.now) (drop from self.now.run_sizes.now)) (length (drop from self.now.run_ids.now)) }
    {
        let longest = self.chains[from];
        let mut size: u64 = 0;
        for k in 0..longest {
            let i = from + k;
            size += self.run_sizes[i];
            if !self.check_beginning(o, used, i, size) {
                return k;
            }
        }
        longest
    }
}
