// slatedb's finish and drain over rows of lent tables: what is refused is found first, then the tables change.
#![tactic(auto)]

pub mod drain;
pub mod ending;
pub mod finish;
