// What the figures print.
use std::fmt::Display;
use std::io;

// What the lines below are about.
pub fn heading(rt: &impl Print, said: &str) -> io::Result<()> {
    println!(rt; "== {said}")
}

// A call, what 01 says that it answers, and what it answered.
pub fn call(rt: &impl Print, said: &str, expected: &str, got: &impl Display) -> io::Result<()> {
    println!(rt; "{said}: expected {expected}, got {got}")
}

// What 01 says of a row, and below it what came.
pub fn row(rt: &impl Print, expected: &str, got: &impl Display) -> io::Result<()> {
    println!(rt; "  expected {expected}\n  got      {got}")
}
