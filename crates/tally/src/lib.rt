// The shift report but for its runs: what is kept of a line while its bytes come in, the text of a call,
// and what the lines so far add up to. All of it is plain data, by value. Whatever stands in it, nothing
// here wraps: what no shift can come to is counted no further.
#![tactic(auto)]

pub mod calls;
pub mod combining;
pub mod lines;
mod paying;
pub mod sums;

// Lines of a shift.
pub const LINES: u32 = 65536;
