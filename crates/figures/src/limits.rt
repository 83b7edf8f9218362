// Document 01's figures of the size limit.
use crate::plan_calls::{options, show_one_spec, show_plan};
use crate::show::call;
use crate::trees::root;
use size_limit::limit;
use std::io;

// "threshold 1.0: limit(16,777,217) = 16,777,216, so two runs of 16,777,217 don't chain; limit(16,777,219) = 16,777,220;
// limit(2^64 - 1) = 2^64 - 1.": beside them two runs of 16,777,219, which chain.
fn rounded_in(rt: &impl Print) -> io::Result<()> {
    call(
        rt,
        "threshold 1.0, limit(16777217)",
        "16777216",
        &limit(1.0, 16777217),
    )?;
    show_plan(
        rt,
        "plan two runs of 16777217, threshold 1.0, min 2, max 3",
        "0 specs, passes 0",
        &root(0, 2, &[16777217; 2]),
        options(1.0, 2, 3, 3),
    )?;
    call(
        rt,
        "threshold 1.0, limit(16777219)",
        "16777220",
        &limit(1.0, 16777219),
    )?;
    show_one_spec(
        rt,
        "plan two runs of 16777219, threshold 1.0, min 2, max 3",
        "prefix 0, 2 1 to 1",
        &root(0, 2, &[16777219; 2]),
        options(1.0, 2, 3, 3),
    )?;
    call(
        rt,
        "threshold 1.0, limit(2^64 - 1)",
        "18446744073709551615",
        &limit(1.0, u64::MAX),
    )
}

// "0.5: limit(3) = 1. NaN or -2.0: limit(9) = 0. Infinity: limit(0) = 0, limit(1) = 2^64 - 1."
fn cut_out(rt: &impl Print) -> io::Result<()> {
    let infinity = 1.0 / 0.0;
    call(rt, "threshold 0.5, limit(3)", "1", &limit(0.5, 3))?;
    call(rt, "threshold NaN, limit(9)", "0", &limit(0.0 / 0.0, 9))?;
    call(rt, "threshold -2.0, limit(9)", "0", &limit(-2.0, 9))?;
    call(rt, "threshold infinity, limit(0)", "0", &limit(infinity, 0))?;
    call(
        rt,
        "threshold infinity, limit(1)",
        "18446744073709551615",
        &limit(infinity, 1),
    )
}

pub fn limits(rt: &impl Print) -> io::Result<()> {
    rounded_in(rt)?;
    cut_out(rt)
}
