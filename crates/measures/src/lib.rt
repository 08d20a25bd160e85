// What a bill is measured by, and the numbers by which a call refuses.
#![tactic(auto)]

pub mod dial;
pub mod entry;
pub mod rate;
pub mod refusal;
