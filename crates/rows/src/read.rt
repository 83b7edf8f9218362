// Where the rows of a tree, or the source entries of a job, lie in the slices of all.
ghost use Rattle.std.specs.Prelude.{◌≡◌, ◌*◌, ◌<◌, ◌≤◌, length};
ghost use Rattle.rules.specs.Lent.{l0_used, runs_used, sources_used};
ghost use Rattle.rows.specs.InSlices.{trees_in, jobs_in};
ghost use Rattle.rows.specs.Read.{Stands, Entries};

use crate::bounds::column_sum;
use crate::jobs::Jobs;
use crate::trees::Trees;

#[derive(Clone, Copy)]
pub struct TreeRows {
    pub first_row: usize,
    pub rows: usize,
    pub first_run: usize,
    pub runs: usize,
}

#[derive(Clone, Copy)]
pub struct JobRows {
    pub first: usize,
    pub count: usize,
}

impl Trees<'_> {
    // How many L0 rows are in use.
    #[tactic(auto, unfolding(rules::specs::Lent::l0_used))]
    pub fn l0_used(&self) -> usize
        requires { self.now.count ≤ 64 }
        ensures { result ≡ l0_used (trees_in self.now) }
    {
        column_sum(self.rows, 1, self.count)
    }

    // How many runs are in use.
    #[tactic(auto, unfolding(rules::specs::Lent::runs_used))]
    pub fn runs_used(&self) -> usize
        requires { self.now.count ≤ 64 }
        ensures { result ≡ runs_used (trees_in self.now) }
    {
        column_sum(self.rows, 2, self.count)
    }

    // The rows of tree `i`.
    pub fn part(&self, i: usize) -> TreeRows
        requires { (self.now.count ≤ 64) × (3 * self.now.count ≤ length self.now.rows.now) × (i < self.now.count) }
        ensures { Stands self.now.rows.now self.now.count i result.first_row result.rows result.first_run result.runs }
    {
        TreeRows {
            first_row: column_sum(self.rows, 1, i),
            rows: self.rows[3 * i + 1] as usize,
            first_run: column_sum(self.rows, 2, i),
            runs: self.rows[3 * i + 2] as usize,
        }
    }
}

impl Jobs<'_> {
    // How many source entries are in use.
    #[tactic(auto, unfolding(rules::specs::Lent::sources_used))]
    pub fn sources_used(&self) -> usize
        requires { self.now.count ≤ 64 }
        ensures { result ≡ sources_used (jobs_in self.now) }
    {
        column_sum(self.specs, 2, self.count)
    }

    // The source entries of job `i`.
    pub fn part(&self, i: usize) -> JobRows
        requires { (self.now.count ≤ 64) × (3 * self.now.count ≤ length self.now.specs.now) × (i < self.now.count) }
        ensures { Entries self.now.specs.now self.now.count i result.first result.count }
    {
        JobRows {
            first: column_sum(self.specs, 2, i),
            count: self.specs[3 * i + 2] as usize,
        }
    }
}
