// Document 01's tables: the parts of rows that the code hands about.
ghost use Rattle.std.specs.Prelude.{◌≡◌};
ghost use Rattle.rules.specs.Tables.{id_of, status_of, mark_of};

// "A ULID is two u64, high word first, compared in that order."
#[derive(Clone, Copy, Debug, PartialEq, Eq, PartialOrd, Ord)]
pub struct Ulid {
    pub high: u64,
    pub low: u64,
}

// "a watermark: view id and SST id, each absent or present"; "a watermark field's 1 present". Marks and ids as they stand in the
// tables: "Parts that a mark makes idle are not looked at and are copied as they stand", so that they are no Option.
#[derive(Clone, Copy, Debug, PartialEq, Eq)]
pub struct Watermark {
    pub view_mark: u8,
    pub sst_mark: u8,
    pub view: Ulid,
    pub sst: Ulid,
}

// "runs in falling id order (u32 id, u64 size)"
#[derive(Clone, Copy, Debug, PartialEq, Eq)]
pub struct Run {
    pub id: u32,
    pub size: u64,
}

// A source entry: "a source's 1 is a run". Its idle part too is copied as it stands; what it names is `id`.
#[derive(Clone, Copy, Debug, PartialEq, Eq)]
pub struct Source {
    pub mark: u8,
    pub run: u32,
    pub view: Ulid,
}

// "Status 0 Submitted, 1 Scheduled, 2 Running, 3 Compacted, 4 Completed, 5 Failed."
#[derive(Clone, Copy, Debug, PartialEq, Eq)]
pub enum Status {
    Submitted = 0,
    Scheduled = 1,
    Running = 2,
    Compacted = 3,
    Completed = 4,
    Failed = 5,
}

// "A spec is tiered (prefix, sources, destination) or drain (prefix, sources)."; "a spec's 1 a drain"
#[derive(Clone, Copy, Debug, PartialEq, Eq)]
pub enum Kind {
    Tiered = 0,
    Drain = 1,
}

// What a source names.
#[derive(Clone, Copy, Debug, PartialEq, Eq)]
pub enum SourceId {
    SortedRun(u32),
    SstView(Ulid),
}

impl Status {
    // The number that stands in the tables.
    pub fn number(self) -> u8
        ensures { result ≡ status_of self }
    {
        self as u8
    }
}

impl Kind {
    // The mark that stands in the tables.
    pub fn mark(self) -> u8
        ensures { result ≡ mark_of self }
    {
        self as u8
    }
}

impl Source {
    // "Parts that a mark makes idle are not looked at".
    pub fn id(self) -> SourceId
        ensures { result ≡ id_of self }
    {
        if self.mark == 1 {
            SourceId::SortedRun(self.run)
        } else {
            SourceId::SstView(self.view)
        }
    }
}
