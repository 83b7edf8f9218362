// Reads a line of the record: numbers and marks, each with one blank behind it. Behind the line's end there are no more.
ghost use Rattle.std.specs.Prelude.{◌≡◌, length};

use crate::number::Number;
use hex_text::{digit, digit_count};
use rules::tables::Ulid;

#[derive(Drop)]
pub struct Reader<'a> {
    line: &'a [u8],
    at: usize,
}

impl<'a> Reader<'a> {
    pub fn new(line: &'a [u8]) -> Self {
        Reader { line, at: 0 }
    }

    fn rest(&self) -> &'a [u8] {
        self.line.get(self.at..).unwrap_or(&[])
    }

    // Goes behind so many bytes and the blank.
    fn step(&mut self, bytes: usize) {
        self.at = self.at.saturating_add(bytes).saturating_add(1);
    }

    // Whether a number stands here.
    fn more(&self) -> bool {
        self.rest().first().is_some_and(|b| digit(*b).is_some())
    }

    pub fn number<N: Number>(&mut self) -> N {
        let rest = self.rest();
        self.step(digit_count(rest));
        N::of_line(hex_text::number(rest))
    }

    pub fn count(&mut self) -> usize {
        self.number::<u64>() as usize
    }

    pub fn ulid(&mut self) -> Ulid {
        Ulid {
            high: self.number(),
            low: self.number(),
        }
    }

    // A mark is one byte.
    pub fn mark(&mut self) -> u8 {
        let mark = self.rest().first().copied().unwrap_or(b' ');
        self.step(1);
        mark
    }

    // A line is read whole if no byte of it is left, nor one missing.
    pub fn is_at_end(&self) -> bool {
        self.at == self.line.len()
    }

    // The numbers up to the next mark; the places behind them hold what is unused.
    pub fn table<N: Number, const LEN: usize>(&mut self, unused: u8) -> [N; LEN] {
        let mut table = [N::repeated(unused); LEN];
        for place in table.iter_mut() {
            if self.more() {
                *place = self.number();
            }
        }
        self.mark();
        table
    }

    // The change that stands here, if one does: a place and its number.
    fn change_one<N: Number>(&mut self, table: &mut [N])
        ensures { length table.new ≡ length table.old }
    {
        if self.more() {
            let place = self.count();
            let number = self.number();
            if let Some(changed) = table.get_mut(place) {
                *changed = number;
            }
        }
    }

    // The changes up to the next mark, of which there are no more than places.
    pub fn change<N: Number>(&mut self, table: &mut [N])
        ensures { length table.new ≡ length table.old }
    {
        for _ in 0..table.len() {
            self.change_one(table);
        }
        self.mark();
    }
}
