// The picks of a planning call, in a table of the call's own.
ghost use Rattle.std.specs.Prelude.{◌≡◌, ◌+◌, ◌<◌, ◌≤◌, length};
ghost use Rattle.rows.specs.InSlices.{trees_in};
ghost use Rattle.plan_passes.specs.Picks.{source_in, PickWithin, SourcesLent, picks_in, PickAdded};

use rows::ids::ulid;
use rows::trees::Trees;
use rules::tables::SourceId;

// What the sources of a pick are.
#[derive(Clone, Copy, Debug, PartialEq, Eq)]
pub enum SourceKind {
    SstViews,
    SortedRuns,
}

// A spec that was picked. Its sources are `count` L0 rows or runs, from row `from` of the slices of all trees on.
#[derive(Clone, Copy, Debug, PartialEq, Eq)]
pub struct PickRow {
    pub prefix: u32,
    pub destination: u32,
    pub kind: SourceKind,
    pub from: usize,
    pub count: u32,
}

impl PickRow {
    // Source `k`.
    pub fn source(self, k: usize, trees: &Trees) -> SourceId
        requires { (k < self.count) × PickWithin self × SourcesLent (trees_in trees.now) }
        ensures { result ≡ source_in (trees_in trees.now) self.kind (self.from + k) }
    {
        match self.kind {
            SourceKind::SstViews => SourceId::SstView(ulid(trees.l0_ids, 4 * (self.from + k))),
            SourceKind::SortedRuns => SourceId::SortedRun(trees.run_ids[self.from + k]),
        }
    }
}

// A table of picks: its first `count` rows are in use.
#[derive(Drop)]
pub struct Picks<'a> {
    pub rows: &'a mut [PickRow],
    pub count: usize,
}

impl Picks<'_> {
    pub fn in_use(&self) -> &[PickRow]
        requires { self.now.count ≤ length self.now.rows.now }
        ensures { result.now ≡ picks_in self.now }
    {
        &self.rows[..self.count]
    }

    // One pick more.
    pub fn add(&mut self, pick: PickRow)
        requires { self.old.count < length self.old.rows.now }
        ensures { PickAdded self.old pick self.new }
    {
        self.rows[self.count] = pick;
        self.count += 1;
    }
}
