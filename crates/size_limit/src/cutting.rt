// Cutting out: "cut towards zero. Not-a-number and anything below 1 give 0; 2^64 and above give 2^64 - 1."
ghost use Rattle.std.specs.Prelude.{◌≡◌, false, T, pos};
ghost use Rattle.std.specs.Float.Ieee as Ieee;
ghost use Rattle.std.specs.Float.{fin};
ghost use Rattle.size_limit.specs.Ends.{CutOut};

// The whole part of a p from 1 up to 2^64, by its fields: p is `digits` * 2^(`exponent` - 150).
fn whole_part(p: f32) -> u64
    requires { T (Ieee.le (fin false 1 (pos 0)) p) × T (Ieee.lt p (fin false 1 (pos 64))) }
    ensures { result ≡ Ieee.to_unsigned 64 p }
{
    let bits: u32 = f32::to_bits(p);
    let exponent = bits >> 23;
    let digits = ((bits & 0x7f_ffff) | 0x80_0000) as u64;
    if exponent <= 150 {
        return digits >> (150 - exponent);
    }
    digits << (exponent - 150)
}

// `p as u64`, by hand and not by std's `saturating_f32_to_u64`: 01 wants it "worked out by hand where bits are lost". Not-a-number
// passes neither test.
pub fn cut(p: f32) -> u64
    ensures { CutOut p result }
{
    if p >= 18446744073709551616.0 {
        return 18446744073709551615;
    }
    if p >= 1.0 {
        return whole_part(p);
    }
    0
}
