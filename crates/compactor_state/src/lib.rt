// slatedb's job rules over rows of lent tables: adding, merging and retention.
#![tactic(auto)]

pub mod add;
pub mod adding;
pub mod merge;
pub mod retain;
