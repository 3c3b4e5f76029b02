// What is noted of the tokens of a program that has a type, before it runs. It lies where the checker's variables lay:
// first the names of the slots in sight while names are resolved, then a word for each token.
ghost use Rattle.std.specs.Prelude.{◌≡◌, ◌≤◌, ◌<◌, length};
ghost use Rattle.language.specs.Sizes.{TOKENS, TABLE};
ghost use Rattle.layout.specs.Notes.{slot_name, noted, put_name, put_note};

use crate::{NOTES_AT, VARIABLES_AT};

// The number of the name that is bound in a slot, or HELD.
pub fn name(table: &[u32], slot: usize) -> u32
    requires { (TABLE ≤ length table.now) × (slot < TOKENS) }
    ensures { result ≡ slot_name table.now slot }
{
    table[VARIABLES_AT + slot]
}

pub fn put_name(table: &mut [u32], slot: usize, name: u32)
    requires { (TABLE ≤ length table.old) × (slot < TOKENS) }
    ensures { table.new ≡ put_name table.old slot name }
{
    table[VARIABLES_AT + slot] = name;
}

// What is noted of a token: of a name its slot, of a call its function's row or NOBODY.
pub fn note(table: &[u32], token: usize) -> u32
    requires { (TABLE ≤ length table.now) × (token < TOKENS) }
    ensures { result ≡ noted table.now token }
{
    table[NOTES_AT + token]
}

pub fn put(table: &mut [u32], token: usize, x: u32)
    requires { (TABLE ≤ length table.old) × (token < TOKENS) }
    ensures { table.new ≡ put_note table.old token x }
{
    table[NOTES_AT + token] = x;
}
