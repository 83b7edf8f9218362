// The lent tables as records by value, for programs: their slices, and the calls that change them, in place.
#![tactic(auto)]

pub mod endings;
pub mod jobs;
pub mod trees;
