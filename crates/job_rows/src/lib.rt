// The job table's six slices changed together, for adding, merging and retention: jobs taken out, a job put in.
#![tactic(auto)]

pub mod insert;
pub mod keep;
pub mod table;
