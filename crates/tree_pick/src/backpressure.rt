// Holding back: slatedb's BackpressureChecker.
ghost use Rattle.std.specs.Prelude.{◌≡◌, ◌++◌, ◌≤◌, length, drop};
ghost use Rattle.rules.specs.Limit.{limit_of};
ghost use Rattle.rules.specs.Chain.{held_back};
ghost use Rattle.tree_pick.specs.Backpressure.{chains_of, Chains};

use crate::run::build_compactable_run;
use crate::tree::TreePart;
use rules::Options;

// The chain from each run, "used ids ignored", so that it is built once a call and not once a beginning (slatedb's
// longest_compactable_runs_by_sr).
pub fn chain_lengths(o: Options, sizes: &[u64], chains: &mut [usize])
    requires { length sizes.now ≤ length chains.old }
    ensures { chains.new ≡ chains_of (limit_of o.threshold) sizes.now ++ drop (length sizes.now) chains.old }
{
    for i in 0..sizes.len() {
        chains[i] = build_compactable_run(o, sizes, i);
    }
}

impl TreePart<'_, '_> {
    // "It is held back when a next run exists, that run's size is at most limit(sum of the sources), and the chain from that
    // run, used ids ignored, has max entries or more." The comment of the Rust says more than max; its code, as here, max.
    pub fn held_back(&self, o: Options, size: u64, next: usize) -> bool
        requires { (next ≤ length self.now.run_sizes.now) × Chains (limit_of o.threshold) self.now.run_sizes.now self.now.chains.now }
        ensures { result ≡ held_back (limit_of o.threshold) o.max size (drop next self.now.run_sizes.now) }
    {
        if next == self.run_sizes.len() {
            return false;
        }
        if self.run_sizes[next] > size_limit::limit(o.threshold, size) {
            return false;
        }
        o.max as usize <= self.chains[next]
    }
}
