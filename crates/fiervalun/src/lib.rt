// The calls that a cabinet makes, for C: include/fiervalun.h declares them. Each answers 0 where its work is done, else the number
// of document 01's refusal, and promises what the call below it promises. Slices and words come one by one, since C hands them so.
#![tactic(auto)]

pub mod finish;
pub mod jobs;
pub mod plan;
pub mod validate;
