// Planning's refusals 3 and 4.
ghost use Rattle.std.specs.Prelude.{◌≡◌, ◌*◌, ◌^◌, ◌≤◌, leb, length};
ghost use Rattle.rules.specs.Lists.{total};
ghost use Rattle.rules.specs.Lent.{l0_used, runs_used, trees_of};
ghost use Rattle.rules.specs.Planning.{bad_options, sizes_over};
ghost use Rattle.rows.specs.InSlices.{trees_in};

use rows::trees::Trees;
use rules::Options;

// "not 1 <= min <= max <= 64"
pub fn bad_options(o: Options) -> bool
    ensures { result ≡ bad_options o }
{
    !(1 <= o.min && o.min <= o.max && o.max <= 64)
}

// "sum above 2^64 - 1"
fn sum_over(sizes: &[u64]) -> bool
    ensures { result ≡ leb (2 ^ 64) (total sizes.now) }
{
    let mut sum: u64 = 0;
    for size in sizes {
        match sum.checked_add(*size) {
            Some(more) => sum = more,
            None => return true,
        }
    }
    false
}

// "one tree's L0 sizes, or its run sizes, sum above 2^64 - 1"
pub fn sizes_over(trees: &Trees) -> bool
    requires { (3 * trees.now.count ≤ length trees.now.rows.now) × (l0_used (trees_in trees.now) ≤ length trees.now.l0_sizes.now) × (runs_used (trees_in trees.now) ≤ length trees.now.run_sizes.now) }
    ensures { result ≡ sizes_over (trees_of (trees_in trees.now)) }
{
    let mut row = 0;
    let mut run = 0;
    for i in 0..trees.count {
        let end_row = row + trees.rows[3 * i + 1] as usize;
        let end_run = run + trees.rows[3 * i + 2] as usize;
        if sum_over(&trees.l0_sizes[row..end_row]) {
            return true;
        }
        if sum_over(&trees.run_sizes[run..end_run]) {
            return true;
        }
        row = end_row;
        run = end_run;
    }
    false
}
