// Jobs taken out of the table, with their source entries.
ghost use Rattle.std.specs.Prelude.{◌≡◌, ◌+◌, ◌*◌, ◌≤◌, length, get_or, take};
ghost use Rattle.rules.specs.Lists.{keep, total};
ghost use Rattle.rules.specs.Lent.{rows_from};
ghost use Rattle.rows.specs.Movers.{marked};
ghost use Rattle.job_rows.specs.Table.{table_in, SameTables, SameLengths};
ghost use Rattle.job_rows.specs.Slices.{AtCapacity, entry_flags, Keeps};

use crate::table::JobTable;
use rows::movers::keep_rows;
use rules::MAX_SOURCES;

// How many of the first `n` flags are not 0.
#[tactic(auto, using(crate::proofs::Flags::kept_length))]
fn count_marked(flags: &[u8], n: usize) -> usize
    requires { n ≤ length flags.now }
    ensures { result ≡ length (keep marked (take n flags.now)) }
{
    flags[..n].iter().filter(|x| **x != 0).count()
}

impl JobTable<'_> {
    // The flag of each source entry in use is that of its job; the answer is how many entries are in use.
    fn mark_entries(&self, staying: &[u8], flags: &mut [u8]) -> usize
        requires { (self.now.count ≤ 64) × (3 * self.now.count ≤ length self.now.specs.now) × (self.now.count ≤ length staying.now) × (total (rows_from (λ i. get_or self.now.specs.now (3 * i + 2) 0) 0 self.now.count) ≤ length flags.old) }
        ensures { (result ≡ total (rows_from (λ i. get_or self.now.specs.now (3 * i + 2) 0) 0 self.now.count)) × (take result flags.new ≡ entry_flags self.now.specs.now staying.now self.now.count) }
    {
        let mut at = 0;
        for i in 0..self.count {
            let n = self.specs[3 * i + 2] as usize;
            flags[at..at + n].fill(staying[i]);
            at += n;
        }
        at
    }

    // Keeps the jobs whose flag in `staying` is not 0.
    pub fn keep(&mut self, staying: &[u8])
        requires { AtCapacity (table_in self.old) × (self.old.count ≤ length staying.now) }
        ensures same { SameTables self.old self.new }
        ensures lengths { SameLengths self.old self.new }
        ensures kept { Keeps (table_in self.old) staying.now (table_in self.new) }
    {
        let count = self.count;
        let mut flags = [0u8; MAX_SOURCES];
        let used = self.mark_entries(staying, &mut flags);
        keep_rows(self.source_marks, 1, used, &flags);
        keep_rows(self.source_runs, 1, used, &flags);
        keep_rows(self.source_views, 2, used, &flags);
        keep_rows(self.ids, 2, count, staying);
        keep_rows(self.marks, 2, count, staying);
        keep_rows(self.specs, 3, count, staying);
        self.count = count_marked(staying, count);
    }
}
