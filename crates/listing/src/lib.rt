// What happened on a premise's file and its entries, as text.
#![tactic(auto)]

mod line;
pub mod list;
mod page;
pub mod refused;
