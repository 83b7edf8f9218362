// Adding a job: refusal 10.
ghost use Rattle.std.specs.Prelude.{◌≡◌, ◌+◌, ◌*◌, ◌<◌, ◌≤◌, length};
ghost use Rattle.rules.specs.Lent.{jobs_of};
ghost use Rattle.rules.specs.Jobs.{job_of, clashes};
ghost use Rattle.rows.specs.InSlices.{jobs_in};
ghost use Rattle.job_rows.specs.Table.{job_in};
ghost use Rattle.compactor_state.specs.Clash.{clash_at};

use job_rows::table::NewJob;
use rows::jobs::Jobs;
use rules::tables::{Kind, Status};

// Whether job `i` clashes with a drain of this job's prefix, or with a tiered job of its destination.
#[tactic(auto, unfolding(crate::specs::Clash::clash_at))]
fn clashes_at(jobs: &Jobs, job: &NewJob, i: usize) -> bool
    requires { (2 * i + 2 ≤ length jobs.now.marks.now) × (3 * i + 3 ≤ length jobs.now.specs.now) }
    ensures { result ≡ clash_at jobs.now.marks.now jobs.now.specs.now job.now.drain job.now.prefix job.now.destination i }
{
    let active = jobs.marks[2 * i] <= Status::Compacted as u8;
    let is_drain = jobs.marks[2 * i + 1] == Kind::Drain as u8;
    if job.drain == Kind::Drain as u8 {
        return active && is_drain && jobs.specs[3 * i] == job.prefix;
    }
    active && !is_drain && jobs.specs[3 * i + 1] == job.destination
}

// "job is a drain and an active drain has its prefix, or its destination is an active job's destination": with any of the
// jobs, the one of the same id too.
pub fn clashes(jobs: &Jobs, job: &NewJob) -> bool
    requires { (2 * jobs.now.count ≤ length jobs.now.marks.now) × (3 * jobs.now.count ≤ length jobs.now.specs.now) }
    ensures { result ≡ clashes (job_of (job_in job.now)) (jobs_of (jobs_in jobs.now)) }
{
    for i in 0..jobs.count {
        if clashes_at(jobs, job, i) {
            return true;
        }
    }
    false
}
