// What finish and drain find before they change anything: the job and its tree, or what is refused.
ghost use Rattle.std.specs.Prelude.{◌≡◌, true, ◌*◌, ◌≤◌, length};
ghost use Rattle.rules.specs.Tables.{mark_of};
ghost use Rattle.rules.specs.Lent.{LentTrees, LentJobs, jobs_of};
ghost use Rattle.rules.specs.Bounds.{good_jobs};
ghost use Rattle.finishing.specs.Finding.{WorkFound};

use rows::jobs::Jobs;
use rows::trees::Trees;
use rules::answers::Refusal;
use rules::tables::{Kind, Ulid};

// The rows of the job and of its tree, which has none where its segment is missing.
#[derive(Clone, Copy, Debug, PartialEq, Eq)]
pub struct Work {
    pub job: usize,
    pub tree: Option<usize>,
}

// "Finish: 11, 12, 7, missing segment", of a tiered job, and "Drain: 11, 12, missing segment" of a drain.
pub fn find_work(trees: &Trees, jobs: &Jobs, id: Ulid, kind: Kind) -> Result<Work, Refusal>
    requires { (3 * trees.now.count ≤ length trees.now.rows.now) × (2 * jobs.now.count ≤ length jobs.now.ids.now) × (2 * jobs.now.count ≤ length jobs.now.marks.now) × (3 * jobs.now.count ≤ length jobs.now.specs.now) }
    ensures { (t : LentTrees) (j : LentJobs) → t.count ≡ trees.now.count → t.trees ≡ trees.now.rows.now → j.count ≡ jobs.now.count → j.job_ids ≡ jobs.now.ids.now → j.job_marks ≡ jobs.now.marks.now → j.job_specs ≡ jobs.now.specs.now → good_jobs (jobs_of j) ≡ true → WorkFound t j id (mark_of kind) result }
{
    let Some(job) = jobs.find(id) else {
        return Err(Refusal::NoSuchJob);
    };
    if jobs.marks[2 * job + 1] != kind.mark() {
        return Err(Refusal::WrongKind);
    }
    if kind == Kind::Tiered && jobs.specs[3 * job + 2] == 0 {
        return Err(Refusal::NoSources);
    }
    let tree = trees.find(jobs.specs[3 * job]);
    Ok(Work { job, tree })
}
