// One tree's rows changed in the lent slices of all trees, for finish and drain: rows taken out, a run put in, the watermark set.
#![tactic(auto)]

pub mod keep;
pub mod put;
pub mod table;
pub mod watermark;
