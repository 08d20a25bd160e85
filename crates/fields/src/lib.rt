// The fields of a line: how bytes are parted, and what a field tells.
#![tactic(auto)]

pub mod cut;
pub mod number;
pub mod rate;
