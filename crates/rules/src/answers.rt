// What the public calls answer: what they did, or why they are refused.
ghost use Rattle.std.specs.Prelude.{◌≡◌};
ghost use Rattle.rules.specs.Answers.{number_of};

// Document 01's "Refusal numbers", each under the name that the C header gives it.
#[derive(Clone, Copy, Debug, PartialEq, Eq)]
pub enum Refusal {
    OutOfBounds = 1,
    Misshapen = 2,
    BadOptions = 3,
    SizesTooLarge = 4,
    PlanTooSmall = 5,
    UnknownPrefix = 6,
    NoSources = 7,
    NotConsecutive = 8,
    WrongDestination = 9,
    Clashes = 10,
    NoSuchJob = 11,
    WrongKind = 12,
    RunsOutOfOrder = 13,
    TableFull = 14,
}

impl Refusal {
    // "Each returns its number alone".
    pub fn number(self) -> u32
        ensures { result ≡ number_of self }
    {
        self as u32
    }
}

// What planning made: how many specs, and "the number of passes that picked something".
#[derive(Clone, Copy, Debug, PartialEq, Eq)]
pub struct Planned {
    pub specs: usize,
    pub passes: usize,
}

// What finish and drain did: "A missing segment is no refusal".
#[derive(Clone, Copy, Debug, PartialEq, Eq)]
pub enum Finished {
    Committed,
    SegmentMissing,
}
