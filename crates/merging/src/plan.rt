// What merging finds out before it changes anything: which remote jobs are adopted, which local jobs stay, and refusal 14.
ghost use Rattle.std.specs.Prelude.{◌≡◌, Bool, ◌<◌, cond, get_or};
ghost use Rattle.rules.specs.Answers.{refused};
ghost use Rattle.rules.specs.Tables.{Job};
ghost use Rattle.rules.specs.Lent.{LentJobs, jobs_of};
ghost use Rattle.rules.specs.Jobs.{merged, too_many};
ghost use Rattle.rows.specs.InSlices.{jobs_in};
ghost use Rattle.merging.specs.Merge.{adopted, stays, Flags, GoodRows, HasRows, Planned};

use crate::adoption::adopts;
use crate::room::{exceeds, flagged_entries, flagged_jobs};
use rows::ids::ulid;
use rows::jobs::Jobs;
use rules::answers::Refusal;

// Whether remote job `i` is adopted, by the status of the local job of its id or by its absence.
fn adopted_at(jobs: &Jobs, remote: &Jobs, i: usize) -> bool
    requires { GoodRows (jobs_in jobs.now) × GoodRows (jobs_in remote.now) × (i < remote.now.count) }
    ensures { (l s : LentJobs) (d : Job) → HasRows l (jobs_in jobs.now) → HasRows s (jobs_in remote.now) → result ≡ adopted (jobs_of l) (get_or (jobs_of s) i d) }
{
    let status = remote.marks[2 * i] as usize;
    match jobs.find(ulid(remote.ids, 2 * i)) {
        Some(k) => adopts(jobs.marks[2 * k] as usize + 1, status),
        None => adopts(0, status),
    }
}

// The flags of the remote jobs that are adopted, by the local jobs as they were lent.
fn mark_adopted(jobs: &Jobs, remote: &Jobs) -> [u8; 64]
    requires { GoodRows (jobs_in jobs.now) × GoodRows (jobs_in remote.now) }
    ensures { (l s : LentJobs) → HasRows l (jobs_in jobs.now) → HasRows s (jobs_in remote.now) → Flags (adopted (jobs_of l)) (jobs_of s) result }
{
    let mut flags = [0; 64];
    for i in 0..remote.count {
        flags[i] = adopted_at(jobs, remote, i) as u8;
    }
    flags
}

// Whether local job `k` stays: "Local jobs missing remotely stay.", and one whose remote record is adopted goes.
fn stays_at(jobs: &Jobs, remote: &Jobs, taken: &[u8; 64], k: usize) -> bool
    requires { GoodRows (jobs_in jobs.now) × GoodRows (jobs_in remote.now) × (k < jobs.now.count) }
    ensures { (l s : LentJobs) (p : Job → Bool) (d : Job) → HasRows l (jobs_in jobs.now) → HasRows s (jobs_in remote.now) → Flags p (jobs_of s) taken.now → result ≡ stays p (jobs_of s) (get_or (jobs_of l) k d) }
{
    match remote.find(ulid(jobs.ids, 2 * k)) {
        Some(i) => taken[i] == 0,
        None => true,
    }
}

// The flags of the local jobs that stay.
fn mark_staying(jobs: &Jobs, remote: &Jobs, taken: &[u8; 64]) -> [u8; 64]
    requires { GoodRows (jobs_in jobs.now) × GoodRows (jobs_in remote.now) }
    ensures { (l s : LentJobs) (p : Job → Bool) → HasRows l (jobs_in jobs.now) → HasRows s (jobs_in remote.now) → Flags p (jobs_of s) taken.now → Flags (stays p (jobs_of s)) (jobs_of l) result }
{
    let mut flags = [0; 64];
    for k in 0..jobs.count {
        flags[k] = stays_at(jobs, remote, taken, k) as u8;
    }
    flags
}

// The flags, as the movers of rows take them: of the remote jobs that are taken, and of the local ones that stay; and whether
// there is room for the result.
#[derive(Clone, Copy)]
pub struct MergePlan {
    pub taken: [u8; 64],
    pub staying: [u8; 64],
    pub room: Result<(), Refusal>,
}

// All that is to be known before the first byte is written. A remote job that is taken goes in where the local one of its id,
// which does not stay, goes out: the sums are those of the result.
pub fn plan_merge(jobs: &Jobs, remote: &Jobs) -> MergePlan
    requires { GoodRows (jobs_in jobs.now) × GoodRows (jobs_in remote.now) }
    ensures fits { (l s : LentJobs) → HasRows l (jobs_in jobs.now) → HasRows s (jobs_in remote.now) → refused result.room ≡ cond (too_many (merged (jobs_of l) (jobs_of s))) 14 0 }
    ensures planned { (l s : LentJobs) → HasRows l (jobs_in jobs.now) → HasRows s (jobs_in remote.now) → Planned l s result.taken result.staying }
{
    let taken = mark_adopted(jobs, remote);
    let staying = mark_staying(jobs, remote, &taken);
    let count = flagged_jobs(&staying, jobs.count) + flagged_jobs(&taken, remote.count);
    let entries = flagged_entries(&staying, jobs) + flagged_entries(&taken, remote);
    let room = exceeds(count, entries);
    MergePlan {
        taken,
        staying,
        room,
    }
}
