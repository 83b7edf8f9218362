// The watermark of one tree.
ghost use Rattle.std.specs.Prelude.{◌≡◌, ◌<◌, ◌≤◌, length};
ghost use Rattle.rules.specs.declared.tables.Watermark.{Watermark};
ghost use Rattle.rules.specs.Lent.{LentTrees, trees_of, lay_trees};
ghost use Rattle.tree_rows.specs.Change.{changed_at, put_watermark};
ghost use Rattle.tree_rows.specs.Slices.{MarksOf};
ghost use Rattle.tree_rows.specs.Table.{table_in, SameSlices, SameLengths, with_watermarks};

use crate::table::TreeTable;
use rules::tables::Watermark;

impl TreeTable<'_> {
    // Sets the watermark of tree i: "view id and SST id, each absent or present".
    pub fn set_watermark(&mut self, i: usize, watermark: Watermark)
        requires { (i < 32) × (length self.old.watermark_marks.now ≡ 64) × (length self.old.watermarks.now ≡ 128) }
        ensures same { SameSlices self.old self.new }
        ensures lengths { SameLengths self.old self.new }
        ensures others { table_in self.new ≡ with_watermarks (table_in self.old) (table_in self.new) }
        ensures set { i < self.old.count → self.old.count ≤ 32 → table_in self.new ≡ with_watermarks (table_in self.old) (lay_trees (table_in self.old) (changed_at i (put_watermark watermark) (trees_of (table_in self.old)))) }
        ensures every { (t : LentTrees) → i < t.count → t.count ≤ 32 → MarksOf t self.old.watermark_marks.now self.old.watermarks.now → MarksOf (lay_trees t (changed_at i (put_watermark watermark) (trees_of t))) self.new.watermark_marks.now self.new.watermarks.now }
    {
        self.watermark_marks[2 * i] = watermark.view_mark;
        self.watermark_marks[2 * i + 1] = watermark.sst_mark;
        self.watermarks[4 * i] = watermark.view.high;
        self.watermarks[4 * i + 1] = watermark.view.low;
        self.watermarks[4 * i + 2] = watermark.sst.high;
        self.watermarks[4 * i + 3] = watermark.sst.low;
    }
}
