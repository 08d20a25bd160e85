#![tactic(auto)]

// Histories worked by hand, call by call.
#[cfg(test)]
mod history;
#[cfg(test)]
mod tests;
