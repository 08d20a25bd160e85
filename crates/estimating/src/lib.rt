// How a missed period gets its figure: the interface of an estimating method, and what methods are made of.
#![tactic(auto)]

pub mod basis;
pub mod first_then;
pub mod fixed;
pub mod method;
