// Refusal 1: "a lent table or option lies outside the bounds above on entry (0 trees too)".
ghost use Rattle.std.specs.Prelude.{◌≡◌, ℕ, ◌+◌, ◌*◌, ◌<◌, ◌≤◌, get_or};
ghost use Rattle.rules.specs.Lists.{total};
ghost use Rattle.rules.specs.Lent.{LentTrees, LentJobs, rows_from};
ghost use Rattle.rules.specs.Bounds.{trees_outside, jobs_outside};

use rules::{MAX_JOBS, MAX_L0, MAX_RUNS, MAX_SOURCES, MAX_TREES};

// A slice may be shorter than its capacity until refusal 2 has looked: what is not there counts as 0.
fn number_at(s: &[u32], at: usize) -> u32
    ensures { result ≡ get_or s.now at 0 }
{
    s.get(at).copied().unwrap_or(0)
}

// The sum of number `k` of each of the first `n` rows, of three numbers each, as those of trees and of jobs' specs are.
pub fn column_sum(s: &[u32], k: usize, n: usize) -> usize
    requires { (k < 3) × (n ≤ 64) }
    ensures { result ≡ total (rows_from (λ i. get_or s.now (3 * i + k) 0) 0 n) }
{
    let mut sum: usize = 0;
    for i in 0..n {
        sum += number_at(s, 3 * i + k) as usize;
    }
    sum
}

#[tactic(auto, unfolding(rules::specs::Bounds::trees_outside, rules::specs::Lent::l0_used, rules::specs::Lent::runs_used))]
pub fn trees_outside(count: usize, trees: &[u32]) -> bool
    ensures { (t : LentTrees) → t.count ≡ count → t.trees ≡ trees.now → result ≡ trees_outside t }
{
    count == 0
        || MAX_TREES < count
        || MAX_L0 < column_sum(trees, 1, count)
        || MAX_RUNS < column_sum(trees, 2, count)
}

#[tactic(auto, unfolding(rules::specs::Bounds::jobs_outside, rules::specs::Lent::sources_used))]
pub fn jobs_outside(count: usize, job_specs: &[u32]) -> bool
    ensures { (j : LentJobs) → j.count ≡ count → j.job_specs ≡ job_specs.now → result ≡ jobs_outside j }
{
    MAX_JOBS < count || MAX_SOURCES < column_sum(job_specs, 2, count)
}
