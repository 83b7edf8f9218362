// The room that jobs with a flag take, and refusal 14, for merging and adding.
ghost use Rattle.std.specs.Prelude.{◌≡◌, cond, ◌||◌, ◌+◌, ◌*◌, ◌≤◌, ltb, length, get_or};
ghost use Rattle.rules.specs.Answers.{refused};
ghost use Rattle.rules.specs.Lists.{total};
ghost use Rattle.rules.specs.Lent.{rows_from};
ghost use Rattle.rules.specs.Bounds.{max_jobs, max_sources};
ghost use Rattle.rows.specs.Movers.{marked};

use rows::jobs::Jobs;
use rules::answers::Refusal;
use rules::{MAX_JOBS, MAX_SOURCES};

// What a job adds to a sum: nothing where it has no flag.
fn counted(flag: u8, n: usize) -> usize
    ensures { (result ≡ cond (marked flag) n 0) × (result ≤ n) }
{
    if flag != 0 {
        return n;
    }
    0
}

// How many of the first `n` jobs have a flag.
pub fn flagged_jobs(flags: &[u8; 64], n: usize) -> usize
    requires { n ≤ 64 }
    ensures { (result ≡ total (rows_from (λ k. cond (marked (get_or flags.now k 0)) 1 0) 0 n)) × (result ≤ n) }
{
    let mut sum: usize = 0;
    for i in 0..n {
        sum += counted(flags[i], 1);
    }
    sum
}

// How many source entries these have.
pub fn flagged_entries(flags: &[u8; 64], jobs: &Jobs) -> usize
    requires { (jobs.now.count ≤ 64) × (3 * jobs.now.count ≤ length jobs.now.specs.now) }
    ensures { (result ≡ total (rows_from (λ k. cond (marked (get_or flags.now k 0)) (get_or jobs.now.specs.now (3 * k + 2) 0) 0) 0 jobs.now.count)) × (result ≤ 4294967295 * jobs.now.count) }
{
    let mut sum: usize = 0;
    for i in 0..jobs.count {
        sum += counted(flags[i], jobs.specs[3 * i + 2] as usize);
    }
    sum
}

// 14: "the result exceeds 64 jobs, 1,024 entries"
pub fn exceeds(jobs: usize, entries: usize) -> Result<(), Refusal>
    ensures { refused result ≡ cond (ltb max_jobs jobs || ltb max_sources entries) 14 0 }
{
    if MAX_JOBS < jobs || MAX_SOURCES < entries {
        return Err(Refusal::TableFull);
    }
    Ok(())
}
