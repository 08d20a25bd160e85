// The standard method of estimating a missed period: the rungs, and their ladder.
#![tactic(auto)]

pub mod rungs;
pub mod standard;
