// The tables of the trees.

#[derive(Clone, Copy, PartialEq, Eq)]
pub struct Trees {
    pub count: usize,
    pub rows: [u32; 96],
    pub watermark_marks: [u8; 64],
    pub watermarks: [u64; 128],
    pub l0_ids: [u64; 2048],
    pub l0_sizes: [u64; 512],
    pub run_ids: [u32; 512],
    pub run_sizes: [u64; 512],
}

impl Trees {
    // The slices that a call is lent.
    pub fn lent(&self) -> rows::trees::Trees<'_> {
        rows::trees::Trees {
            count: self.count,
            rows: &self.rows,
            watermark_marks: &self.watermark_marks,
            watermarks: &self.watermarks,
            l0_ids: &self.l0_ids,
            l0_sizes: &self.l0_sizes,
            run_ids: &self.run_ids,
            run_sizes: &self.run_sizes,
        }
    }
}
