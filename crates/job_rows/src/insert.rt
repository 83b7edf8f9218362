// A job put into the table, with its source entries.
ghost use Rattle.std.specs.Prelude.{◌≡◌, ◌+◌, ◌*◌, ◌≤◌, length, get_or};
ghost use Rattle.rules.specs.Lists.{leading, total};
ghost use Rattle.rules.specs.Tables.{ulid_below};
ghost use Rattle.rules.specs.Lent.{rows_from, ulid_at};
ghost use Rattle.job_rows.specs.Table.{table_in, job_in, SameTables, SameLengths};
ghost use Rattle.job_rows.specs.Slices.{HasRoom, Inserts};

use crate::table::{JobTable, NewJob};
use rows::bounds::column_sum;
use rows::ids::ulid;
use rows::movers::open_rows;
use rules::tables::Ulid;

impl JobTable<'_> {
    // "Jobs stand in rising id order.": how many jobs stand before the place of this id.
    fn place(&self, id: Ulid) -> usize
        requires { 2 * self.now.count ≤ length self.now.ids.now }
        ensures { result ≡ leading (λ u. ulid_below u id) (rows_from (λ k. ulid_at self.now.ids.now (2 * k)) 0 self.now.count) }
    {
        for i in 0..self.count {
            if !(ulid(self.ids, 2 * i) < id) {
                return i;
            }
        }
        self.count
    }

    // How many source entries the first `n` jobs have.
    fn entries_before(&self, n: usize) -> usize
        requires { n ≤ 64 }
        ensures { result ≡ total (rows_from (λ i. get_or self.now.specs.now (3 * i + 2) 0) 0 n) }
    {
        column_sum(self.specs, 2, n)
    }

    // Puts a job whose id is not in the table at its place by id.
    pub fn insert(&mut self, job: &NewJob)
        requires { HasRoom (table_in self.old) (job_in job.now) }
        ensures same { SameTables self.old self.new }
        ensures lengths { SameLengths self.old self.new }
        ensures inserted { Inserts (table_in self.old) (job_in job.now) (table_in self.new) }
    {
        let n = job.sources.marks.len();
        let count = self.count;
        let at = self.place(job.id);
        let used = self.entries_before(count);
        let from = self.entries_before(at);
        open_rows(self.source_marks, 1, used, from, job.sources.marks, n);
        open_rows(self.source_runs, 1, used, from, job.sources.runs, n);
        open_rows(self.source_views, 2, used, from, job.sources.views, n);
        let id = [job.id.high, job.id.low];
        let state = [job.status, job.drain];
        let spec = [job.prefix, job.destination, n as u32];
        open_rows(self.ids, 2, count, at, &id, 1);
        open_rows(self.marks, 2, count, at, &state, 1);
        open_rows(self.specs, 3, count, at, &spec, 1);
        self.count = count + 1;
    }
}
