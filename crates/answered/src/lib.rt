// What came of a sheet, from what the box answered: of a whole sheet, and of a rate sheet with a call under it.
#![tactic(auto)]

pub mod alike;
pub mod called;
pub mod refusals;
pub mod whole;
