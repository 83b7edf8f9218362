// What a planning call begins with: refusals 3 and 4, the free slots, the first fresh number, the used ids, the chains, the order
// of trees.
#![tactic(auto)]

pub mod chains;
pub mod fresh;
pub mod order;
pub mod refusals;
pub mod slots;
pub mod used;
