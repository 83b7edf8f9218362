// The lent trees, as a call changes them.
ghost use Rattle.std.specs.Prelude.{◌≡◌};
ghost use Rattle.rows.specs.InSlices.{trees_in};
ghost use Rattle.tree_rows.specs.Table.{table_in};

use rows::trees::Trees;

// The slices of `Trees`, lent to be changed.
#[derive(Drop)]
pub struct TreeTable<'a> {
    pub count: usize,
    pub rows: &'a mut [u32],
    pub watermark_marks: &'a mut [u8],
    pub watermarks: &'a mut [u64],
    pub l0_ids: &'a mut [u64],
    pub l0_sizes: &'a mut [u64],
    pub run_ids: &'a mut [u32],
    pub run_sizes: &'a mut [u64],
}

impl TreeTable<'_> {
    // The trees as they stand.
    pub fn rows(&self) -> Trees<'_>
        ensures { trees_in result ≡ table_in self.now }
    {
        Trees {
            count: self.count,
            rows: self.rows,
            watermark_marks: self.watermark_marks,
            watermarks: self.watermarks,
            l0_ids: self.l0_ids,
            l0_sizes: self.l0_sizes,
            run_ids: self.run_ids,
            run_sizes: self.run_sizes,
        }
    }
}
