// The file of a premise: what its bills are, from reads, misses and moves.
#![tactic(auto)]

mod book;
pub mod calls;
mod closing;
pub mod condition;
mod event;
pub mod file;
pub mod happening;
mod miss;
pub mod opening;
mod own;
mod period;
pub mod play;
mod read;
