// Filling the missing intervals of a month so that they come to the register total.
#![tactic(auto)]

mod checks;
pub mod fill;
pub mod interval;
pub mod month;
