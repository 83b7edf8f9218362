// Where a finish puts its output, and the two refusals that hang on it.
ghost use Rattle.std.specs.Prelude.{◌≡◌, ◌+◌, ◌≤◌, not, leb, length, get_or};
ghost use Rattle.rules.specs.Lists.{leading};
ghost use Rattle.rules.specs.Lent.{rows_from};
ghost use Rattle.finishing.specs.Placing.{clash_in, place_in};

use rows::find::run_in;
use rows::read::TreeRows;
use rules::MAX_RUNS;
use rules::answers::Refusal;
use tree_rows::keep::count_kept;

// Whether a run that stays has the output's number. No number is that of two runs, so only one can.
fn output_clashes(run_ids: &[u32], used: usize, kept: &[u8], output: u32) -> bool
    requires { (used ≤ length run_ids.now) × (used ≤ length kept.now) }
    ensures { result ≡ clash_in run_ids.now used kept.now output }
{
    match run_in(run_ids, 0, used, output) {
        Some(same) => kept[same] != 0,
        None => false,
    }
}

// "put the output before the first old run whose id is not above it, else last": how many of `runs` runs from run `first` on
// stand before it.
fn output_place(run_ids: &[u32], first: usize, runs: usize, output: u32) -> usize
    requires { first + runs ≤ length run_ids.now }
    ensures { result ≡ leading (λ x. not (leb x output)) (rows_from (λ k. get_or run_ids.now k 0) first runs) }
{
    for i in first..first + runs {
        if run_ids[i] <= output {
            return i - first;
        }
    }
    runs
}

// "13, 14", or the place among the runs that stay, of all trees: for a tree whose runs are those of `part`; `used` runs are in
// use, and `kept` flags those that stay.
#[tactic(auto, using(crate::proofs::Placed::place_full))]
pub fn place_output(
    run_ids: &[u32],
    used: usize,
    part: TreeRows,
    kept: &[u8],
    output: u32,
) -> Result<usize, Refusal>
    requires { (used ≤ 512) × (used ≤ length run_ids.now) × (used ≤ length kept.now) × (part.first_run + part.runs ≤ used) }
    ensures { result ≡ place_in run_ids.now used part.first_run part.runs kept.now output }
{
    if output_clashes(run_ids, used, kept, output) {
        return Err(Refusal::RunsOutOfOrder);
    }
    if MAX_RUNS <= count_kept(&kept[0..used]) {
        return Err(Refusal::TableFull);
    }
    let end = part.first_run + output_place(run_ids, part.first_run, part.runs, output);
    Ok(part.first_run + count_kept(&kept[part.first_run..end]))
}
