// A chain over a lent list of source records: slatedb's build_compactable_run as it reads its sources. The planner's own builder,
// in crate tree_pick, reads rows of sizes; that both build the same chain is their contracts.
#![tactic(auto)]

ghost use Rattle.std.specs.Prelude.{◌≡◌, map, false, cond, ◌≤◌, min, length, drop, eqb, ltb};
ghost use Rattle.std.specs.declared.ops.ControlFlow.TheVariants.{Break, Continue};
ghost use Rattle.rules.specs.Limit.{limit_of};
ghost use Rattle.rules.specs.Chain.{chain};

use std::ops::ControlFlow;

// "a lent list of source records, each an id and a size"
#[derive(Clone, Copy)]
pub struct Source {
    pub id: u32,
    pub size: u64,
}

// "take run i; take each next run while its size is at most limit(smallest size taken so far)": source i, of this size, of a chain
// from `from` ends it or not; the smallest size with it.
pub fn step(threshold: f32, from: usize, i: usize, least: u64, size: u64) -> ControlFlow<u64, u64>
    ensures { result ≡ cond (cond (eqb i from) false (ltb (limit_of threshold least) size)) (Break (cond (eqb i from) size (min least size))) (Continue (cond (eqb i from) size (min least size))) }
{
    if i == from {
        return ControlFlow::Continue(size);
    }
    let smallest = least.min(size);
    if size > size_limit::limit(threshold, least) {
        return ControlFlow::Break(smallest);
    }
    ControlFlow::Continue(smallest)
}

// How many sources the chain from source `from` takes: the records are taken apart here, one at a time.
pub fn build_compactable_run(threshold: f32, sources: &[Source], from: usize) -> usize
    requires { from ≤ length sources.now }
    ensures { result ≡ chain (limit_of threshold) (drop from (map (λ x. x.size) sources.now)) }
{
    let mut least = 0;
    for i in from..sources.len() {
        match step(threshold, from, i, least, sources[i].size) {
            ControlFlow::Continue(smallest) => least = smallest,
            ControlFlow::Break(_) => return i - from,
        }
    }
    sources.len() - from
}

// The same of an array by value, so that a caller needs no reference to a record (docs/DECISIONS.md 42).
pub fn run_of_array(threshold: f32, sources: [Source; 8], from: usize) -> usize
    requires { from ≤ 8 }
    ensures { result ≡ chain (limit_of threshold) (drop from (map (λ x. x.size) sources)) }
{
    build_compactable_run(threshold, &sources, from)
}
