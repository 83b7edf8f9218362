// Source entries: made for a call, and taken from a table.
use rows::sources::Sources;
use rules::tables::{SourceId, Ulid};

// A view of 01's figures, whose ids have no high word.
pub fn view(low: u64) -> SourceId {
    SourceId::SstView(Ulid { high: 0, low })
}

pub fn run(id: u32) -> SourceId {
    SourceId::SortedRun(id)
}

// Up to 32 source entries, as they lie in slices; what a mark makes idle is 0.
#[derive(Drop)]
pub struct SourceTable {
    count: usize,
    marks: [u8; 32],
    runs: [u32; 32],
    views: [u64; 64],
}

impl SourceTable {
    pub fn of(sources: &[SourceId]) -> SourceTable {
        let mut table = SourceTable {
            count: 0,
            marks: [0; 32],
            runs: [0; 32],
            views: [0; 64],
        };
        for source in sources {
            table.push(*source);
        }
        table
    }

    fn push(&mut self, source: SourceId) {
        let i = self.count;
        if i >= 32 {
            return;
        }
        match source {
            SourceId::SortedRun(id) => {
                self.marks[i] = 1;
                self.runs[i] = id;
            }
            SourceId::SstView(id) => {
                self.views[2 * i] = id.high;
                self.views[2 * i + 1] = id.low;
            }
        }
        self.count = i + 1;
    }

    pub fn lent(&self) -> Sources<'_> {
        let n = self.count.min(32);
        Sources {
            marks: &self.marks[..n],
            runs: &self.runs[..n],
            views: &self.views[..2 * n],
        }
    }
}

// So many entries from place `at` on, if there are.
pub fn part<'a>(all: &Sources<'a>, at: usize, n: usize) -> Option<Sources<'a>> {
    let end = at.checked_add(n)?;
    Some(Sources {
        marks: all.marks.get(at..end)?,
        runs: all.runs.get(at..end)?,
        views: all.views.get(at.checked_mul(2)?..end.checked_mul(2)?)?,
    })
}

// What entry i names, if there is one.
pub fn source(sources: &Sources, i: usize) -> Option<SourceId> {
    if i < sources.marks.len() && i < sources.runs.len() && i < sources.views.len() / 2 {
        return Some(sources.at(i).id());
    }
    None
}
