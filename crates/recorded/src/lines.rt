// A line of the record: the call's letter, the refusal or 0, = where slatedb's own code answers so and ~ where 01 decides
// otherwise, then what the call is lent and what it leaves.
use crate::calls::{drain_agrees, finish_agrees, merge_agrees, retain_agrees};
use crate::plans::plan_agrees;
use crate::reader::Reader;
use crate::specs::{add_agrees, validate_agrees};
use std::fmt;

#[derive(Clone, Copy)]
pub enum Call {
    Plan,
    Validate,
    Add,
    Merge,
    Retain,
    Finish,
    Drain,
}

impl Call {
    pub const ALL: [Call; 7] = [
        Call::Plan,
        Call::Validate,
        Call::Add,
        Call::Merge,
        Call::Retain,
        Call::Finish,
        Call::Drain,
    ];

    fn of_letter(letter: u8) -> Option<Call> {
        match letter {
            b'p' => Some(Call::Plan),
            b'v' => Some(Call::Validate),
            b'a' => Some(Call::Add),
            b'm' => Some(Call::Merge),
            b'r' => Some(Call::Retain),
            b'f' => Some(Call::Finish),
            b'd' => Some(Call::Drain),
            _ => None,
        }
    }

    fn agrees(self, reader: &mut Reader, n: u32) -> bool {
        match self {
            Call::Plan => plan_agrees(reader, n),
            Call::Validate => validate_agrees(reader, n),
            Call::Add => add_agrees(reader, n),
            Call::Merge => merge_agrees(reader, n),
            Call::Retain => retain_agrees(reader, n),
            Call::Finish => finish_agrees(reader, n),
            Call::Drain => drain_agrees(reader, n),
        }
    }
}

impl fmt::Display for Call {
    fn fmt<W: fmt::Write>(&self, f: &mut fmt::Formatter<W>) -> fmt::Result {
        f.write_str(match self {
            Call::Plan => "plan",
            Call::Validate => "validate",
            Call::Add => "add",
            Call::Merge => "merge",
            Call::Retain => "retain",
            Call::Finish => "finish",
            Call::Drain => "drain",
        })
    }
}

// `refusal` is that which the line says, 0 for none.
#[derive(Clone, Copy)]
pub struct Told {
    pub call: Option<Call>,
    pub refusal: u32,
    pub theirs: bool,
    pub agrees: bool,
}

// A line agrees only if it is read whole.
pub fn tell(line: &[u8]) -> Told {
    let mut reader = Reader::new(line);
    let call = Call::of_letter(reader.mark());
    let refusal = reader.number();
    let theirs = reader.mark() == b'=';
    let agrees = match call {
        Some(call) => call.agrees(&mut reader, refusal),
        None => false,
    };
    Told {
        call,
        refusal,
        theirs,
        agrees: agrees && reader.is_at_end(),
    }
}
