// Where tokens, rows, functions and variables lie in table memory, and slots, frames and cells in work
// memory, with a function for each way to read or write one. `specs/` says the same for contracts.
//
// Table memory: a token has four words (kind, place and end in one, and two for what it is worth: the low
// one a number's value or a name's number, both together a float number's bits), a row of the reading five (kind, own
// token, three more), a function one (its row), a variable of the checker two (its name's number, its type's number).
// Once the checker is done its variables' words hold what is noted of tokens (`notes`).
// Work memory: a slot has three words (a key and a tag in one, and two for the value, of which a float alone needs the
// high one), a frame four (a node's row, its phase, the first slot that it sees, and how many with a mark in one word);
// cells are slots, too.
//
// That there is room for all of it stands in each contract: both memories are C's, of any length, and each contract says
// of every word what it was and is. A type that holds a borrowed slice and that fact would be taken apart in every clause.
// So it is with rows, slots and tokens in the crates above: what is so of one stands in the contract of who asks for it.
// To read a word is a line in each module: a function over the region and the place would be longer at each call.
#![tactic(auto)]

pub mod floats;
pub mod frames;
pub mod functions;
pub mod memory;
pub mod notes;
pub mod rows;
pub mod slots;
pub mod token;
pub mod types;
pub mod values;
pub mod variables;

use language::{ACTIVE, NODES, PARAMETERS, TOKENS};

// A program as a table holds it: how many tokens and how many functions it has, and the row of its last
// expression.
#[derive(Clone, Copy)]
pub struct Held {
    pub count: usize,
    pub functions: usize,
    pub root: usize,
}

// Where each region of table memory begins.
pub const ROWS_AT: usize = 4 * TOKENS;

pub const FUNCTIONS_AT: usize = 9 * TOKENS;

pub const VARIABLES_AT: usize = 10 * TOKENS;

// What is noted of tokens, behind the names of the slots in sight, where the checker's variables lay.
pub const NOTES_AT: usize = 11 * TOKENS;

pub const TABLE_END: usize = 12 * TOKENS;

// How many slots can be in use at once. A call that works out its last argument holds those before it,
// and a body's Block sees all of them.
pub const SLOTS: usize = (PARAMETERS - 1) * ACTIVE + PARAMETERS;

// How many frames: one for each active node, and one below them.
pub const FRAMES: usize = ACTIVE + 1;

// Where each region of work memory begins.
pub const SLOTS_AT: usize = 0;

pub const FRAMES_AT: usize = 3 * SLOTS;

pub const CELLS_AT: usize = FRAMES_AT + 4 * FRAMES;

// The number of the name `putchar`, which is no token's ordinal.
pub const PUTCHAR: u32 = TOKENS as u32;

// In the place of a name's number: a slot in which no name is bound, but an operand or an argument waits.
pub const HELD: u32 = TOKENS as u32 + 1;

// In the place of a function's row: no function, but `putchar`.
pub const NOBODY: u32 = NODES as u32;
