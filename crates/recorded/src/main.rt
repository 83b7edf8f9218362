// Puts the recorded answers of standard input before the public calls, and writes for each call and answer how many agree. A line
// that does not agree is written out. The record is what `oracle record` prints (oracle/src/flat.rs has its form): each line stands
// behind its length, in eight digits and a blank.
#![tactic(auto)]

mod calls;
mod jobs;
mod lines;
mod number;
mod plans;
mod reader;
mod slices;
mod specs;
mod tally;
mod trees;

use lines::tell;
use reading::read_full;
use slices::first_mut;
use std::io;
use std::io::Read;
use tally::Tally;

fn take_line(rt: &impl Print, line: &[u8], tally: &mut Tally) -> io::Result<()> {
    let told = tell(line);
    tally.add(&told);
    if !told.agrees {
        rt.write_all(b"differs: ")?;
        rt.write_all(line)?;
    }
    Ok(())
}

// Takes the next line, and answers whether there was one.
fn next_line(rt: &impl Print, input: &mut impl Read, tally: &mut Tally) -> io::Result<bool> {
    let mut length = [0; 9];
    if read_full(input, &mut length)? < 9 {
        return Ok(false);
    }
    let mut space = [0; 65536];
    let line = first_mut(&mut space, hex_text::number(&length) as usize);
    let n = read_full(input, line)?;
    take_line(rt, &line[..n], tally)?;
    Ok(true)
}

// A proved loop has to end, and nothing says that an input does: it has fewer lines than this.
fn main(rt: HostRuntime) -> io::Result<()> {
    let mut input = rt.reader();
    let mut tally = Tally::default();
    for _ in 0..65536 {
        if !next_line(&rt, &mut input, &mut tally)? {
            break;
        }
    }
    tally.show(&rt)
}
