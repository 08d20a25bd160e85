// The library as C calls it: each function takes numbers and lent lists, and answers a number.
#![tactic(auto)]

mod answer;
mod copy;
pub mod demands;
pub mod estimates;
pub mod gaps;
pub mod portions;
pub mod sheet;
