// Types by their numbers, as rows and variables hold them, and C's reports: there is one for every count of `ref`.
use language::REFS;

pub const INT: u32 = 1;

pub const BOOL: u32 = 2;

pub const UNIT: u32 = 3;

pub const FLOAT: u32 = 4;

// What `ref` adds, and `!` takes away.
pub const REF: u32 = 8;

// From here on a type has as many `ref` as it may have, and takes no more; from there on too many.
pub const FULL: u32 = REF * REFS;

pub const OVER: u32 = REF * (REFS + 1);
