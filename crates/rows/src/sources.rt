// Source entries as they lie in three slices: those of all jobs, or those of one spec or job by itself.
ghost use Rattle.std.specs.Prelude.{◌≡◌, ◌&&◌, ◌+◌, ◌*◌, ◌<◌, length};
ghost use Rattle.rules.specs.Lent.{source_at};
ghost use Rattle.rules.specs.Bounds.{lengths_agree, good_sources};
ghost use Rattle.rules.specs.Validation.{lent_sources};

use crate::ids::ulid;
use crate::shape::marks_good;
use rules::tables::Source;

#[derive(Clone, Copy)]
pub struct Sources<'a> {
    pub marks: &'a [u8],
    pub runs: &'a [u32],
    pub views: &'a [u64],
}

impl Sources<'_> {
    pub fn at(&self, i: usize) -> Source
        requires { (i < length self.now.marks.now) × (i < length self.now.runs.now) × (2 * i + 1 < length self.now.views.now) }
        ensures { result ≡ source_at self.now.marks.now self.now.runs.now self.now.views.now i }
    {
        Source {
            mark: self.marks[i],
            run: self.runs[i],
            view: ulid(self.views, 2 * i),
        }
    }

    // "lent lengths disagree" or "a mark above 1" in the sources of a spec to validate or of a job to be added, each by itself: of
    // one chain of these tests the proof did not close.
    pub fn are_good(&self) -> bool
        ensures { result ≡ lengths_agree self.now.marks.now self.now.runs.now self.now.views.now && good_sources (lent_sources self.now.marks.now self.now.runs.now self.now.views.now) }
    {
        if self.runs.len() != self.marks.len() {
            return false;
        }
        if self.views.len() / 2 != self.marks.len() {
            return false;
        }
        if self.views.len() % 2 != 0 {
            return false;
        }
        marks_good(self.marks)
    }
}
