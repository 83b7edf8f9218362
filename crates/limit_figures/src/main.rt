// Runs the limit on the vectors of standard input, whose answers are Rust's (vectors.rs, which says how they lie), and
// writes for each class how many agree. A case that differs is written out, followed by the answer of the limit.
#![tactic(auto)]

ghost use Rattle.std.specs.Prelude.{◌≤◌, IfOk};

use hex_text::{number, threshold_of};
use reading::read_full;
use std::io;
use std::io::Read;

fn next_line(input: &mut impl Read) -> io::Result<Option<[u8; 43]>> {
    let mut line = [0; 43];
    if read_full(input, &mut line)? < 43 {
        return Ok(None);
    }
    Ok(Some(line))
}

fn agrees(rt: &impl Print, line: &[u8; 43]) -> io::Result<bool> {
    let threshold = threshold_of(u32::try_from(number(line)).unwrap_or(0));
    let answer = size_limit::limit(threshold, number(&line[9..]));
    if answer == number(&line[26..]) {
        return Ok(true);
    }
    rt.write_all(line)?;
    println!(rt; "{answer:016x} is the limit")?;
    Ok(false)
}

// A case that is missing does not agree.
fn next_agrees(rt: &impl Print, input: &mut impl Read) -> io::Result<bool> {
    match next_line(input)? {
        Some(line) => agrees(rt, &line),
        None => Ok(false),
    }
}

fn differing(rt: &impl Print, input: &mut impl Read, cases: u64) -> io::Result<u64>
    ensures { IfOk result (λ n. n ≤ cases) }
{
    let mut differ = 0;
    for i in 0..cases {
        if !next_agrees(rt, input)? {
            differ += 1;
        }
    }
    Ok(differ)
}

fn report(rt: &impl Print, class: &[u8; 43], cases: u64, differ: u64) -> io::Result<()>
    requires { differ ≤ cases }
{
    rt.write_all(&class[9..42])?;
    let agree = cases - differ;
    println!(rt; " {cases} cases, {agree} agree, {differ} differ")
}

fn run_class(rt: &impl Print, input: &mut impl Read, class: &[u8; 43]) -> io::Result<()> {
    let cases = number(class);
    let differ = differing(rt, input, cases)?;
    report(rt, class, cases, differ)
}

// A proved loop has to end, and nothing says that an input does: it has fewer classes than this.
fn main(rt: HostRuntime) -> io::Result<()> {
    let mut input = rt.reader();
    for _ in 0..64 {
        match next_line(&mut input)? {
            Some(class) => run_class(&rt, &mut input, &class)?,
            None => break,
        }
    }
    Ok(())
}
