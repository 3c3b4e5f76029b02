// The sizes of the box, for the code; `specs/Sizes.antt` has them for the definitions. Every other
// crate takes a size from here, under this name.
#![tactic(auto)]

pub mod kinds;

// Bytes of a source, tokens of it, nodes of its reading.
pub const SOURCE: usize = 49152;

pub const TOKENS: usize = 1360;

pub const NODES: usize = 1360;

// Functions of a program, parameters of a function, `ref` in a type.
pub const FUNCTIONS: usize = 32;

pub const PARAMETERS: usize = 8;

pub const REFS: u32 = 15;

// Units that a run may be allowed, nodes active at once, cells live at once.
pub const ALLOWANCE: u64 = 1000000;

pub const ACTIVE: usize = 512;

pub const CELLS: usize = 1024;

// Units that a pay sheet may count.
pub const PAY_COUNT: u32 = 1000000;

// Words of 32 bits of each lent memory.
pub const TABLE: usize = 16384;

pub const WORK: usize = 16384;

// The largest number that can be written, and the largest value of a byte.
pub const LARGEST: u64 = 2147483647;

pub const BYTE: i32 = 255;

// The most digits of a float number.
pub const DIGITS: usize = 15;
