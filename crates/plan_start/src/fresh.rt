// The first fresh run number: slatedb's next_global_sr_id.
ghost use Rattle.std.specs.Prelude.{◌≡◌, map, ◌&&◌, not, ◌+◌, ◌*◌, ◌≤◌, ◌<◌, eqb, leb, length, get_or};
ghost use Rattle.rules.specs.Lists.{keep, one_above};
ghost use Rattle.rules.specs.Tables.{active, is_drain};
ghost use Rattle.rules.specs.Lent.{LentTrees, LentJobs, runs_used, trees_of, jobs_of};
ghost use Rattle.rules.specs.Plan.{first_fresh};

use rows::jobs::Jobs;
use rows::trees::Trees;
use rules::LAST_RUN;
use rules::tables::{Kind, Status};

// "one above the largest of all committed run ids", 0 if there are none: of a wider type, since it is
// stopped only in the end.
fn above_runs(run_ids: &[u32]) -> usize
    ensures { result ≡ one_above run_ids.now }
{
    let mut above: usize = 0;
    for id in run_ids {
        above = above.max(*id as usize + 1);
    }
    above
}

// A drain has no destination.
fn has_active_destination(jobs: &Jobs, i: usize) -> bool
    requires { 2 * i + 1 < length jobs.now.marks.now }
    ensures { result ≡ (leb (get_or jobs.now.marks.now (2 * i) 0) 3 && not (eqb (get_or jobs.now.marks.now (2 * i + 1) 0) 1)) }
{
    jobs.marks[2 * i] <= Status::Compacted as u8 && jobs.marks[2 * i + 1] != Kind::Drain as u8
}

// "active destinations", of tiered jobs, one above the largest; "Active sources do not count here."
fn above_destinations(jobs: &Jobs) -> usize
    requires { (2 * jobs.now.count ≤ length jobs.now.marks.now) × (3 * jobs.now.count ≤ length jobs.now.specs.now) }
    ensures { (j : LentJobs) → j.count ≡ jobs.now.count → j.job_marks ≡ jobs.now.marks.now → j.job_specs ≡ jobs.now.specs.now → result ≡ one_above (map (λ x. x.destination) (keep (λ x. active x && not (is_drain x)) (jobs_of j))) }
{
    let mut above: usize = 0;
    for i in 0..jobs.count {
        if has_active_destination(jobs, i) {
            above = above.max(jobs.specs[3 * i + 1] as usize + 1);
        }
    }
    above
}

// "The first fresh number is one above the largest of all committed run ids and active destinations, 0 if there are none,
// and stops at 4,294,967,295.": of trees that have `runs` runs in all.
pub fn first_fresh(trees: &Trees, runs: usize, jobs: &Jobs) -> u32
    requires { (runs ≤ length trees.now.run_ids.now) × (2 * jobs.now.count ≤ length jobs.now.marks.now) × (3 * jobs.now.count ≤ length jobs.now.specs.now) }
    ensures { (t : LentTrees) (j : LentJobs) → runs_used t ≡ runs → t.run_ids ≡ trees.now.run_ids.now → j.count ≡ jobs.now.count → j.job_marks ≡ jobs.now.marks.now → j.job_specs ≡ jobs.now.specs.now → result ≡ first_fresh (trees_of t) (jobs_of j) }
{
    let committed = above_runs(&trees.run_ids[..runs]);
    let fresh = committed.max(above_destinations(jobs));
    fresh.min(LAST_RUN as usize) as u32
}
