// The passes of a planning call: each asks every tree once. The picks are laid into the lent plan.
#![tactic(auto)]

pub mod ask;
pub mod lay;
pub mod passes;
pub mod picks;
