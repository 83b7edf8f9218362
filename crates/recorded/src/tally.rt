// How many lines there are of each call and answer.
use crate::lines::{Call, Told};
use std::{fmt, io};

#[derive(Clone, Copy, Default)]
struct Count {
    cases: u64,
    theirs: u64,
    agree: u64,
}

impl Count {
    fn add(&mut self, told: &Told) {
        self.cases = self.cases.wrapping_add(1);
        self.theirs = self.theirs.wrapping_add(u64::from(told.theirs));
        self.agree = self.agree.wrapping_add(u64::from(told.agrees));
    }
}

impl fmt::Display for Count {
    fn fmt<W: fmt::Write>(&self, f: &mut fmt::Formatter<W>) -> fmt::Result {
        let cases = self.cases;
        let theirs = self.theirs;
        let agree = self.agree;
        write!(
            f,
            "{cases} cases, {theirs} as slatedb's own code answers, {agree} agree"
        )
    }
}

// Lines of each call, by the refusal, 0 for none; and lines that are no call's, or say a refusal that there is not.
#[derive(Clone, Copy, Default)]
pub struct Tally {
    calls: [[Count; 16]; 7],
    others: Count,
}

impl Tally {
    fn count_of(&mut self, told: &Told) -> &mut Count {
        match told.call {
            Some(call) if told.refusal < 16 => {
                &mut self.calls[call as usize][told.refusal as usize]
            }
            _ => &mut self.others,
        }
    }

    pub fn add(&mut self, told: &Told) {
        self.count_of(told).add(told);
    }

    // The counts that have a case.
    pub fn show(&self, rt: &impl Print) -> io::Result<()> {
        for call in Call::ALL {
            show_call(rt, call, &self.calls[call as usize])?;
        }
        if self.others.cases > 0 {
            println!(rt; "no call answered: {}", self.others)?;
        }
        Ok(())
    }
}

fn show_call(rt: &impl Print, call: Call, counts: &[Count; 16]) -> io::Result<()> {
    for (refusal, count) in counts.iter().enumerate() {
        if count.cases > 0 {
            show_count(rt, call, refusal, count)?;
        }
    }
    Ok(())
}

fn show_count(rt: &impl Print, call: Call, refusal: usize, count: &Count) -> io::Result<()> {
    if refusal == 0 {
        println!(rt; "{call} answered: {count}")
    } else {
        println!(rt; "{call} refused {refusal}: {count}")
    }
}
