// Rows taken out of one tree.
ghost use Rattle.std.specs.Prelude.{◌≡◌, Bool, length};
ghost use Rattle.rules.specs.Lists.{keep};
ghost use Rattle.rules.specs.declared.tables.Run.{Run};
ghost use Rattle.rules.specs.Tables.{L0Row};
ghost use Rattle.rules.specs.Lent.{trees_of, lay_trees};
ghost use Rattle.rows.specs.Movers.{marked};
ghost use Rattle.tree_rows.specs.Change.{changed_at, keep_rows, L0Flags, RunFlags};
ghost use Rattle.tree_rows.specs.Slices.{KeepRoom};
ghost use Rattle.tree_rows.specs.Table.{table_in, SameSlices, SameLengths, with_rows};

use crate::table::TreeTable;
use rows::movers;

// How many rows the flags keep.
#[tactic(auto, using(crate::proofs::Counts::kept_length))]
pub fn count_kept(flags: &[u8]) -> usize
    ensures { result ≡ length (keep marked flags.now) }
{
    flags.iter().filter(|flag| **flag != 0).count()
}

impl TreeTable<'_> {
    // Keeps the L0 rows and the runs of tree i whose flag is not 0; the flags are those of all rows in use, and keep every row of
    // the other trees.
    pub fn keep_rows(&mut self, i: usize, l0_kept: &[u8], runs_kept: &[u8])
        requires { KeepRoom (table_in self.old) i l0_kept.now runs_kept.now }
        ensures same { SameSlices self.old self.new }
        ensures lengths { SameLengths self.old self.new }
        ensures others { table_in self.new ≡ with_rows (table_in self.old) (table_in self.new) }
        ensures kept { (p : L0Row → Bool) (q : Run → Bool) → L0Flags (table_in self.old) i p l0_kept.now → RunFlags (table_in self.old) i q runs_kept.now → table_in self.new ≡ with_rows (table_in self.old) (lay_trees (table_in self.old) (changed_at i (keep_rows p q) (trees_of (table_in self.old)))) }
    {
        let lent = self.rows();
        let l0_used = lent.l0_used();
        let runs_used = lent.runs_used();
        let part = lent.part(i);
        let last_row = part.first_row + part.rows;
        let last_run = part.first_run + part.runs;
        movers::keep_rows(self.l0_ids, 4, l0_used, l0_kept);
        movers::keep_rows(self.l0_sizes, 1, l0_used, l0_kept);
        movers::keep_rows(self.run_ids, 1, runs_used, runs_kept);
        movers::keep_rows(self.run_sizes, 1, runs_used, runs_kept);
        let rows = count_kept(&l0_kept[part.first_row..last_row]) as u32;
        let runs = count_kept(&runs_kept[part.first_run..last_run]) as u32;
        self.rows[3 * i + 1] = rows;
        self.rows[3 * i + 2] = runs;
    }
}
