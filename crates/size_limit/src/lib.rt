// The size limit: rounding in, the product, cutting out.
#![tactic(auto)]

ghost use Rattle.std.specs.Prelude.{◌≡◌};
ghost use Rattle.rules.specs.Limit.{limit_of};

mod cutting;
mod rounding;

// "limit(s): round s to the nearest single-precision number, ties to even; multiply by the threshold, rounded once; cut
// towards zero." slatedb's `(size as f32 * threshold) as u64`, for every threshold.
pub fn limit(threshold: f32, size: u64) -> u64
    ensures { result ≡ limit_of threshold size }
{
    cutting::cut(rounding::nearest_single(size) * threshold)
}
