// Rounding in: "round s to the nearest single-precision number, ties to even".
ghost use Rattle.std.specs.Prelude.{◌≡◌};
ghost use Rattle.rules.specs.Limit as Limit;
ghost use Rattle.size_limit.specs.Ends.{RoundedIn};

// The first number that has more digits than the 24 of a single.
const TWO_TO_24: u64 = 16777216;

// How many low digits of s a single has to drop.
fn dropped(s: u64) -> u32
    ensures { result ≡ Limit.dropped s }
{
    (64 - s.leading_zeros()).saturating_sub(24)
}

// By hand, as 01 wants it where bits are lost: the digits of s that a single keeps where it drops e: s / 2^e to the nearest whole number, a tie to the even one.
fn kept(s: u64, e: u32) -> u64
    requires { e ≡ Limit.dropped s }
    ensures { result ≡ Limit.kept s }
{
    let unit: u64 = 1 << e;
    let q = s >> e;
    let twice = (s & (unit - 1)) * 2;
    if twice < unit {
        return q;
    }
    if twice > unit {
        return q + 1;
    }
    q + q % 2
}

// `s as f32`, worked out by hand where it loses bits. From 2^24 on the kept digits lead with a one, which a pattern leaves
// out and which here counts the exponent's field up by one: from e + 149 to e + 150. Where the rounding has carried into a
// 25th digit it counts two, and the field is right again.
pub fn nearest_single(s: u64) -> f32
    ensures { RoundedIn s result }
{
    if s < TWO_TO_24 {
        return s as f32;
    }
    let e = dropped(s);
    let q = kept(s, e);
    f32::from_bits(((e + 149) << 23) + (q as u32))
}
