// The lent jobs, and refusals 1 and 2 of them.
ghost use Rattle.std.specs.Prelude.{◌≡◌, ℕ, ◌+◌, ◌*◌, ◌<◌, ◌≤◌, length, get_or};
ghost use Rattle.rules.specs.Answers.{refused};
ghost use Rattle.rules.specs.Lists.{all, total};
ghost use Rattle.rules.specs.Lent.{lent_jobs, rows_from};
ghost use Rattle.rules.specs.Bounds.{jobs_at_capacity, jobs_refusal};
ghost use Rattle.rows.specs.InSlices.{jobs_in};
ghost use Rattle.rows.specs.Shape.{good_marks_at, flat_jobs};

use crate::bounds::{column_sum, jobs_outside};
use crate::shape::{marks_good, rising};
use crate::sources::Sources;
use rules::answers::Refusal;
use rules::tables::{Kind, Status};
use rules::{MAX_JOBS, MAX_SOURCES};

// "Jobs stand in rising id order.": the source entries of all stand in job order, as many for each as its spec says.
#[derive(Clone, Copy)]
pub struct Jobs<'a> {
    pub count: usize,
    pub ids: &'a [u64],
    pub marks: &'a [u8],
    pub specs: &'a [u32],
    pub sources: Sources<'a>,
}

// "status above 5 or a mark above 1": the first `n` jobs have none.
fn job_marks_good(job_marks: &[u8], n: usize) -> bool
    requires { 2 * n ≤ length job_marks.now }
    ensures { result ≡ all (good_marks_at job_marks.now) (rows_from (λ k. k) 0 n) }
{
    for i in 0..n {
        if job_marks[2 * i] > Status::Failed as u8 {
            return false;
        }
        if job_marks[2 * i + 1] > Kind::Drain as u8 {
            return false;
        }
    }
    true
}

impl Jobs<'_> {
    // "lent lengths disagree or a table isn't lent at its capacity"
    #[tactic(auto, unfolding(rules::specs::Bounds::jobs_at_capacity))]
    fn at_capacity(&self) -> bool
        ensures { result ≡ jobs_at_capacity (jobs_in self.now) }
    {
        self.ids.len() == 2 * MAX_JOBS
            && self.marks.len() == 2 * MAX_JOBS
            && self.specs.len() == 3 * MAX_JOBS
            && self.sources.marks.len() == MAX_SOURCES
            && self.sources.runs.len() == MAX_SOURCES
            && self.sources.views.len() == 2 * MAX_SOURCES
    }

    // The rules on jobs that are within the bounds and lent at capacity.
    fn are_good(&self) -> bool
        requires { (self.now.count ≤ 64) × (length self.now.ids.now ≡ 128) × (length self.now.marks.now ≡ 128) × (length self.now.sources.marks.now ≡ 1024) × (total (rows_from (λ i. get_or self.now.specs.now (3 * i + 2) 0) 0 self.now.count) ≤ 1024) }
        ensures { result ≡ flat_jobs self.now.count self.now.ids.now self.now.marks.now self.now.specs.now self.now.sources.marks.now }
    {
        rising(self.ids, self.count)
            && job_marks_good(self.marks, self.count)
            && marks_good(&self.sources.marks[..column_sum(self.specs, 2, self.count)])
    }

    // Refusals 1 and 2.
    pub fn check(&self) -> Result<(), Refusal>
        ensures { refused result ≡ jobs_refusal (jobs_in self.now) }
    {
        if jobs_outside(self.count, self.specs) {
            return Err(Refusal::OutOfBounds);
        }
        if !self.at_capacity() {
            return Err(Refusal::Misshapen);
        }
        if self.are_good() {
            return Ok(());
        }
        Err(Refusal::Misshapen)
    }
}
