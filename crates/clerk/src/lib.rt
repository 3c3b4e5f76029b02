// What a clerk is told of what came of a sheet or of a shift: pure functions, which put text on a page, each its own (`page`
// says why those that are alike stay so).
#![tactic(auto)]

pub mod people;
pub mod shifts;
