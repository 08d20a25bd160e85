// Sharing a total out over records of any kind by their weights.
#![tactic(auto)]

pub mod entry;
pub mod record;
pub mod share;
