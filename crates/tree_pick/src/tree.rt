// One tree of the lent tables, as picks take it.
ghost use Rattle.std.specs.Prelude.{◌+◌, ◌*◌, ◌≤◌, length};
ghost use Rattle.rows.specs.InSlices.{trees_in};
ghost use Rattle.tree_pick.specs.Asked.{PartOf};

use rows::trees::Trees;

// The parts of the slices that are the tree's, and of the table of chain lengths (slatedb's TreeState). The run ids are lent for a
// time of their own, `'i`: a window is a part of them, and outlives a chain table.
#[derive(Clone, Copy)]
pub struct TreePart<'i, 'a> {
    pub prefix: u32,
    pub l0_ids: &'a [u64],
    pub l0_sizes: &'a [u64],
    pub run_ids: &'i [u32],
    pub run_sizes: &'a [u64],
    pub chains: &'a [usize],
}

// A tree as it is asked: where its rows and its runs lie in the slices of all trees.
#[derive(Clone, Copy, PartialEq, Eq, Debug)]
pub struct AskedTree {
    pub prefix: u32,
    pub l0_from: usize,
    pub l0_count: usize,
    pub run_from: usize,
    pub run_count: usize,
}

impl AskedTree {
    // The parts of the slices that are the tree's.
    pub fn part<'i: 'a, 'a>(self, trees: &Trees<'i>, chains: &'a [usize]) -> TreePart<'i, 'a>
        requires l0 { (4 * (self.l0_from + self.l0_count) ≤ length trees.now.l0_ids.now) × (self.l0_from + self.l0_count ≤ length trees.now.l0_sizes.now) }
        requires runs { (self.run_from + self.run_count ≤ length trees.now.run_ids.now) × (self.run_from + self.run_count ≤ length trees.now.run_sizes.now) × (self.run_from + self.run_count ≤ length chains.now) }
        ensures { PartOf self (trees_in trees.now) chains.now result }
    {
        let l = self.l0_from;
        let l_end = l + self.l0_count;
        let r = self.run_from;
        let r_end = r + self.run_count;
        TreePart {
            prefix: self.prefix,
            l0_ids: &trees.l0_ids[4 * l..4 * l_end],
            l0_sizes: &trees.l0_sizes[l..l_end],
            run_ids: &trees.run_ids[r..r_end],
            run_sizes: &trees.run_sizes[r..r_end],
            chains: &chains[r..r_end],
        }
    }
}
