// The slots that are left for new jobs.
ghost use Rattle.std.specs.Prelude.{◌≡◌, ◌*◌, ◌≤◌, length};
ghost use Rattle.rules.specs.Lists.{keep};
ghost use Rattle.rules.specs.Tables.{holds_slot};
ghost use Rattle.rules.specs.Lent.{LentJobs, jobs_of};
ghost use Rattle.rules.specs.Plan.{free_slots};

use rows::jobs::Jobs;
use rules::Options;
use rules::tables::Status;

// "Slots are held by 0, 1, 2.": "Counting Compacted against slots" is a mistake.
fn slots_held(jobs: &Jobs) -> usize
    requires { 2 * jobs.now.count ≤ length jobs.now.marks.now }
    ensures { (j : LentJobs) → j.count ≡ jobs.now.count → j.job_marks ≡ jobs.now.marks.now → result ≡ length (keep holds_slot (jobs_of j)) }
{
    let mut held: usize = 0;
    for i in 0..jobs.count {
        if jobs.marks[2 * i] <= Status::Running as u8 {
            held += 1;
        }
    }
    held
}

// "F is the concurrent limit less the slots held, 0 if negative."
#[tactic(auto, unfolding(rules::specs::Plan::free_slots))]
pub fn free_slots(o: Options, jobs: &Jobs) -> usize
    requires { 2 * jobs.now.count ≤ length jobs.now.marks.now }
    ensures { (j : LentJobs) → j.count ≡ jobs.now.count → j.job_marks ≡ jobs.now.marks.now → result ≡ free_slots o (jobs_of j) }
{
    (o.concurrent as usize).saturating_sub(slots_held(jobs))
}
