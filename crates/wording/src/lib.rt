// What came of a sheet, and causes, types, values and mistakes in words: parts of what is told, put on a page.
// Each function has a text of its own (`page` says why those that are alike stay so).
#![tactic(auto)]

pub mod causes;
pub mod ends;
pub mod fields;
pub mod help;
pub mod limits;
pub mod mistakes;
pub mod places;
pub mod types;
pub mod words;
