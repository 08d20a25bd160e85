// How compared cases are counted, and how a program tells of them.
#![tactic(auto)]

pub mod report;
pub mod tally;
