// Sheets: a premise's opening and its calls as text, and how such a text is read.
#![tactic(auto)]

pub mod fault;
pub mod line;
pub mod notice;
mod reader;
mod section;
pub mod sheet;
