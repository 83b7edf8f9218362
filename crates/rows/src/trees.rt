// The lent trees, and refusals 1 and 2 of them.
ghost use Rattle.std.specs.Prelude.{◌≡◌, ℕ, ◌+◌, ◌*◌, ◌<◌, ◌≤◌, length, get_or};
ghost use Rattle.rules.specs.Answers.{refused};
ghost use Rattle.rules.specs.Lists.{total};
ghost use Rattle.rules.specs.Lent.{lent_trees, rows_from};
ghost use Rattle.rules.specs.Bounds.{trees_at_capacity, trees_refusal};
ghost use Rattle.rows.specs.InSlices.{trees_in};
ghost use Rattle.rows.specs.Shape.{falling_from, flat_trees};

use crate::bounds::{column_sum, trees_outside};
use crate::shape::{falling, marks_good, numbers_distinct, views_distinct};
use rules::answers::Refusal;
use rules::{MAX_L0, MAX_RUNS, MAX_TREES};

// "Every table is lent at its full capacity, with counts that say how much of it is used.": a tree's row is its prefix and its
// counts of L0 rows and of runs, which stand in the slices of all trees.
#[derive(Clone, Copy)]
pub struct Trees<'a> {
    pub count: usize,
    pub rows: &'a [u32],
    pub watermark_marks: &'a [u8],
    pub watermarks: &'a [u64],
    pub l0_ids: &'a [u64],
    pub l0_sizes: &'a [u64],
    pub run_ids: &'a [u32],
    pub run_sizes: &'a [u64],
}

// "run ids not strictly falling in a tree": the runs of each of `n` trees fall.
fn all_falling(trees: &[u32], n: usize, run_ids: &[u32]) -> bool
    requires { (3 * n ≤ length trees.now) × (total (rows_from (λ i. get_or trees.now (3 * i + 2) 0) 0 n) ≤ length run_ids.now) }
    ensures { result ≡ falling_from trees.now run_ids.now 0 0 n }
{
    let mut at = 0;
    for i in 0..n {
        let end = at + trees[3 * i + 2] as usize;
        if !falling(&run_ids[at..end]) {
            return false;
        }
        at = end;
    }
    true
}

impl Trees<'_> {
    // "lent lengths disagree or a table isn't lent at its capacity"
    #[tactic(auto, unfolding(rules::specs::Bounds::trees_at_capacity))]
    fn at_capacity(&self) -> bool
        ensures { result ≡ trees_at_capacity (trees_in self.now) }
    {
        self.rows.len() == 3 * MAX_TREES
            && self.watermark_marks.len() == 2 * MAX_TREES
            && self.watermarks.len() == 4 * MAX_TREES
            && self.l0_ids.len() == 4 * MAX_L0
            && self.l0_sizes.len() == MAX_L0
            && self.run_ids.len() == MAX_RUNS
            && self.run_sizes.len() == MAX_RUNS
    }

    // The rules on trees that are within the bounds and lent at capacity, each by itself: of one chain of all six calls the proof
    // did not close.
    fn are_good(&self) -> bool
        requires count_nonzero { (0 < self.now.count) × (self.now.count ≤ 32) × (length self.now.rows.now ≡ 96) × (length self.now.watermark_marks.now ≡ 64) × (length self.now.l0_ids.now ≡ 2048) × (length self.now.run_ids.now ≡ 512) }
        requires count_bound { (total (rows_from (λ i. get_or self.now.rows.now (3 * i + 1) 0) 0 self.now.count) ≤ 512) × (total (rows_from (λ i. get_or self.now.rows.now (3 * i + 2) 0) 0 self.now.count) ≤ 512) }
        ensures { result ≡ flat_trees self.now.count self.now.rows.now self.now.watermark_marks.now self.now.l0_ids.now self.now.run_ids.now }
    {
        if self.rows[0] != 0 {
            return false;
        }
        if !numbers_distinct(self.rows, 3, self.count) {
            return false;
        }
        if !all_falling(self.rows, self.count, self.run_ids) {
            return false;
        }
        if !numbers_distinct(self.run_ids, 1, column_sum(self.rows, 2, self.count)) {
            return false;
        }
        if !views_distinct(self.l0_ids, column_sum(self.rows, 1, self.count)) {
            return false;
        }
        marks_good(&self.watermark_marks[..2 * self.count])
    }

    // Refusals 1 and 2.
    pub fn check(&self) -> Result<(), Refusal>
        ensures { refused result ≡ trees_refusal (trees_in self.now) }
    {
        if trees_outside(self.count, self.rows) {
            return Err(Refusal::OutOfBounds);
        }
        if !self.at_capacity() {
            return Err(Refusal::Misshapen);
        }
        if self.are_good() {
            return Ok(());
        }
        Err(Refusal::Misshapen)
    }
}
