// The report for machines, a name and a value on each line, and one of a shift that is read again: pure functions.
// Each line has a function of its own (`page` says why those that are alike stay so).
#![tactic(auto)]

pub mod machines;
pub mod readings;
mod told;
