// Reading, checking and moving rows of lent tables.
#![tactic(auto)]

pub mod bounds;
pub mod find;
pub mod ids;
pub mod jobs;
pub mod movers;
pub mod read;
pub mod shape;
pub mod sources;
pub mod tables;
pub mod trees;
pub mod watermarks;
