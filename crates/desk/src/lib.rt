// What programs share: the lines, fields and numbers of an input, what is wrong with one, and how a program runs.
#![tactic(auto)]

pub mod fault;
pub mod lines;
pub mod numbers;
pub mod pieces;
pub mod program;
