// Hexadecimal numbers in text, for the programs that read recorded answers.
#![tactic(auto)]

// What a digit in small letters stands for.
pub fn digit(b: u8) -> Option<u8> {
    match b {
        b'0'..=b'9' => Some(b - b'0'),
        b'a'..=b'f' => Some(b - b'a' + 10),
        _ => None,
    }
}

// How many digits the text begins with.
pub fn digit_count(s: &[u8]) -> usize {
    s.iter().take_while(|b| digit(**b).is_some()).count()
}

// The number whose digits the text begins with: of more than 16 the last ones.
pub fn number(s: &[u8]) -> u64 {
    s.iter()
        .map_while(|b| digit(*b))
        .fold(0, |n, d| (n << 4) | u64::from(d))
}

// The threshold of a pattern. `from_bits` takes no NaN's pattern: all of these stand for the NaN that 0 / 0 is.
pub fn threshold_of(bits: u32) -> f32 {
    if (bits & 0x7fff_ffff) <= 0x7f80_0000 {
        f32::from_bits(bits)
    } else {
        0.0 / 0.0
    }
}
