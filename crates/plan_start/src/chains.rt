// The chain from each run of each tree, before the passes (slatedb's BackpressureChecker as it is made).
ghost use Rattle.std.specs.Prelude.{◌*◌, ◌≤◌, length};
ghost use Rattle.rules.specs.Limit.{limit_of};
ghost use Rattle.plan_start.specs.ChainTable.{first_run, ChainsFilled};

use rows::trees::Trees;
use rules::Options;
use tree_pick::backpressure::chain_lengths;

// A chain stays within its tree, so that each tree fills its own part of the table.
pub fn fill_chains(o: Options, trees: &Trees, chains: &mut [usize])
    requires { (3 * trees.now.count ≤ length trees.now.rows.now) × (first_run trees.now.rows.now trees.now.count ≤ length trees.now.run_sizes.now) × (length trees.now.run_sizes.now ≤ length chains.old) }
    ensures { ChainsFilled (limit_of o.threshold) trees.now.rows.now trees.now.run_sizes.now trees.now.count chains.new }
{
    let mut run = 0;
    for i in 0..trees.count {
        let end = run + trees.rows[3 * i + 2] as usize;
        chain_lengths(o, &trees.run_sizes[run..end], &mut chains[run..end]);
        run = end;
    }
}
