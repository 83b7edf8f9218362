// A tree's watermark, as it lies in the slices of all.
ghost use Rattle.std.specs.Prelude.{◌≡◌, ◌+◌, ◌*◌, ◌<◌, length};
ghost use Rattle.rules.specs.Lent.{watermark_at};
ghost use Rattle.rows.specs.InSlices.{trees_in};

use crate::ids::ulid;
use crate::trees::Trees;
use rules::tables::Watermark;

impl Trees<'_> {
    // "a watermark: view id and SST id, each absent or present": that of tree `i`.
    pub fn watermark(&self, i: usize) -> Watermark
        requires { (2 * i + 1 < length self.now.watermark_marks.now) × (4 * i + 3 < length self.now.watermarks.now) }
        ensures { result ≡ watermark_at (trees_in self.now) i }
    {
        Watermark {
            view_mark: self.watermark_marks[2 * i],
            sst_mark: self.watermark_marks[2 * i + 1],
            view: ulid(self.watermarks, 4 * i),
            sst: ulid(self.watermarks, 4 * i + 2),
        }
    }
}
