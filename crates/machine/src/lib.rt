// What a run works on, and all that is done with values: numbers, operands, operators, cells, and
// the bytes that are printed.
#![tactic(auto)]

pub mod arithmetic;
pub mod cells;
pub mod counting;
pub mod leaves;
pub mod operands;
pub mod operations;
pub mod output;
pub mod state;
