// slatedb's size-tiered planner: the calls that cabinets make.
#![tactic(auto)]

pub mod plan;
pub mod validate;
