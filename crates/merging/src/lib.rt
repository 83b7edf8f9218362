// What merging finds out before it changes anything, and the room that jobs take.
#![tactic(auto)]

pub mod adoption;
pub mod plan;
pub mod room;
