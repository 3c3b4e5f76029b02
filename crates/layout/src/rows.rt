// The rows of a reading in table memory: nodes, arguments, parameters and functions.
ghost use Rattle.std.specs.Prelude.{◌≡◌, ◌≤◌, ◌<◌, length};
ghost use Rattle.language.specs.Sizes.{NODES, TABLE};
ghost use Rattle.layout.specs.Table.{row_word, put_row};
ghost use Rattle.layout.specs.Decode.{counts};

use crate::ROWS_AT;
use language::kinds;

// The kinds of rows. A node's is the kind of its own token, and PREFIX more for an operator before its
// operand; a call, an argument and a parameter, whose own token is a name, have one to themselves, and a
// `for` has that of the mark between its start and its end. They are numbers, as kinds of tokens are (`language::kinds`).
pub const PREFIX: u32 = 64;

pub const CALL: u32 = 40;

pub const ARGUMENT: u32 = 41;

pub const PARAMETER: u32 = 42;

// The words of a row. Every row has a kind and an own token.
pub const KIND: usize = 0;

pub const OWN: usize = 1;

// A node's children, as far as it has them. A call's first is its first argument, 0 where it has none.
pub const FIRST: usize = 2;

pub const SECOND: usize = 3;

pub const THIRD: usize = 4;

// A `for`: its start, and its body. Start, end and step are rows of arguments.
pub const START: usize = 2;

pub const PASS: usize = 3;

// An argument, whose own token is the call's or the `for`'s: its expression, and the next argument, 0 where it is the
// last.
pub const EXPRESSION: usize = 2;

pub const NEXT: usize = 3;

// A parameter: its type's number.
pub const TYPE: usize = 2;

// A function: how many parameters it has, whose rows follow its own, its result's type's number, its body.
pub const ARITY: usize = 2;

pub const RESULT: usize = 3;

pub const BODY: usize = 4;

// Is a row of this kind a `for`? It has the kind of the mark between its start and its end.
#[tactic(auto, unfolding(crate::specs::Decode::counts))]
pub fn counts(kind: u32) -> bool
    ensures { result ≡ counts kind }
{
    kind == kinds::UPTO || kind == kinds::THROUGH
}

// Word k of a row.
pub fn word(table: &[u32], row: usize, k: usize) -> u32
    requires { (TABLE ≤ length table.now) × (row < NODES) × (k < 5) }
    ensures { result ≡ row_word table.now row k }
{
    table[ROWS_AT + 5 * row + k]
}

// The same, for a word that names a row or a token.
pub fn link(table: &[u32], row: usize, k: usize) -> usize
    requires { (TABLE ≤ length table.now) × (row < NODES) × (k < 5) }
    ensures { result ≡ row_word table.now row k }
{
    word(table, row, k) as usize
}

#[tactic(auto, unfolding(crate::specs::Table::put_row))]
pub fn put(table: &mut [u32], row: usize, kind: u32, own: u32, first: u32, second: u32, third: u32)
    requires { (TABLE ≤ length table.old) × (row < NODES) }
    ensures { table.new ≡ put_row table.old row kind own first second third }
{
    let w = ROWS_AT + 5 * row;
    table[w] = kind;
    table[w + OWN] = own;
    table[w + FIRST] = first;
    table[w + SECOND] = second;
    table[w + THIRD] = third;
}
