// The numbers of the tables: bytes, half words and words.

pub trait Number: Copy {
    // A number of the line, 0 where it is too large.
    fn of_line(n: u64) -> Self;

    // What unused places hold: one byte, over and over.
    fn repeated(byte: u8) -> Self;
}

impl Number for u8 {
    fn of_line(n: u64) -> u8 {
        u8::try_from(n).unwrap_or(0)
    }

    fn repeated(byte: u8) -> u8 {
        byte
    }
}

impl Number for u32 {
    fn of_line(n: u64) -> u32 {
        u32::try_from(n).unwrap_or(0)
    }

    fn repeated(byte: u8) -> u32 {
        u32::from_le_bytes([byte; 4])
    }
}

impl Number for u64 {
    fn of_line(n: u64) -> u64 {
        n
    }

    fn repeated(byte: u8) -> u64 {
        u64::from_le_bytes([byte; 8])
    }
}
