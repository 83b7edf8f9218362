// One tree's pick, from rows of lent tables: used ids, holding back, chains, windows, step 1.
#![tactic(auto)]

pub mod backpressure;
pub mod conflict;
pub mod pick;
pub mod run;
pub mod tree;
pub mod window;
