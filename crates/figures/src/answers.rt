// What the public calls answer, as text.
use rules::answers::{Finished, Planned, Refusal};
use std::fmt;

// So many of what the word names.
#[derive(Clone, Copy)]
pub struct Counted {
    pub count: usize,
    pub word: &'static str,
}

impl fmt::Display for Counted {
    fn fmt<W: fmt::Write>(&self, f: &mut fmt::Formatter<W>) -> fmt::Result {
        let plural = if self.count == 1 { "" } else { "s" };
        write!(f, "{} {}{plural}", self.count, self.word)
    }
}

// How many specs and passes there are.
#[derive(Clone, Copy)]
pub struct Planning(pub Result<Planned, Refusal>);

impl fmt::Display for Planning {
    fn fmt<W: fmt::Write>(&self, f: &mut fmt::Formatter<W>) -> fmt::Result {
        match self.0 {
            Ok(made) => {
                let specs = Counted {
                    count: made.specs,
                    word: "spec",
                };
                write!(f, "{specs}, passes {}", made.passes)
            }
            Err(refusal) => write!(f, "refused {}", refusal.number()),
        }
    }
}

#[derive(Clone, Copy)]
pub struct Validation(pub Result<(), Refusal>);

impl fmt::Display for Validation {
    fn fmt<W: fmt::Write>(&self, f: &mut fmt::Formatter<W>) -> fmt::Result {
        match self.0 {
            Ok(()) => write!(f, "accepted"),
            Err(refusal) => write!(f, "refused {}", refusal.number()),
        }
    }
}

// The job count after a change.
#[derive(Clone, Copy)]
pub struct JobChange(pub Result<usize, Refusal>);

impl fmt::Display for JobChange {
    fn fmt<W: fmt::Write>(&self, f: &mut fmt::Formatter<W>) -> fmt::Result {
        match self.0 {
            Ok(count) => {
                let jobs = Counted { count, word: "job" };
                write!(f, "{jobs}")
            }
            Err(refusal) => write!(f, "refused {}", refusal.number()),
        }
    }
}

// Of a finish or a drain.
#[derive(Clone, Copy)]
pub struct End(pub Result<Finished, Refusal>);

impl fmt::Display for End {
    fn fmt<W: fmt::Write>(&self, f: &mut fmt::Formatter<W>) -> fmt::Result {
        match self.0 {
            Ok(Finished::Committed) => write!(f, "committed"),
            Ok(Finished::SegmentMissing) => write!(f, "segment missing"),
            Err(refusal) => write!(f, "refused {}", refusal.number()),
        }
    }
}
