// Records of a book, looked up by a test: the latest that passes, the one a year back, and the six latest of a season.
#![tactic(auto)]

pub mod fit;
pub mod latest;
pub mod place;
pub mod record;
pub mod six;
