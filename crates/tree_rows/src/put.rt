// A run put into one tree.
ghost use Rattle.std.specs.Prelude.{◌≡◌, ◌-◌};
ghost use Rattle.rules.specs.declared.tables.Run.{Run};
ghost use Rattle.rules.specs.Lent.{trees_of, lay_trees};
ghost use Rattle.tree_rows.specs.Change.{changed_at, put_run};
ghost use Rattle.tree_rows.specs.Slices.{PutRoom, runs_before};
ghost use Rattle.tree_rows.specs.Table.{table_in, SameSlices, SameLengths, with_runs};

use crate::table::TreeTable;
use rows::movers;
use rules::tables::Run;

impl TreeTable<'_> {
    // Puts a run before run `at`, which is a run of tree i or the place behind its last, counted over the runs of all trees.
    pub fn put_run(&mut self, i: usize, at: usize, run: Run)
        requires { PutRoom (table_in self.old) i at }
        ensures same { SameSlices self.old self.new }
        ensures lengths { SameLengths self.old self.new }
        ensures put { table_in self.new ≡ with_runs (table_in self.old) (lay_trees (table_in self.old) (changed_at i (put_run (at - runs_before self.old.rows.now i) run) (trees_of (table_in self.old)))) }
    {
        let lent = self.rows();
        let runs_used = lent.runs_used();
        movers::open_rows(self.run_ids, 1, runs_used, at, &[run.id], 1);
        movers::open_rows(self.run_sizes, 1, runs_used, at, &[run.size], 1);
        self.rows[3 * i + 2] += 1;
    }
}
