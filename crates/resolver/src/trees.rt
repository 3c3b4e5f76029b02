// Trees: a node's parts from left to right. A part's row comes before its node's, so the row's number falls.
ghost use Rattle.std.specs.Prelude.{true, ◌≡◌, ℕ, ◌+◌, ◌≤◌, ◌<◌, length};
ghost use Rattle.language.specs.Sizes.{TOKENS, NODES, TABLE};
ghost use Rattle.language.specs.Tokens.{LET};
ghost use Rattle.layout.specs.Table.{KIND, OWN, token_value, row_word};
ghost use Rattle.layout.specs.Rows.{CALL};
ghost use Rattle.layout.specs.Decode.{counts};
ghost use Rattle.layout.specs.Functions.{Headed};
ghost use Rattle.layout.specs.Notes.{names_in, put_note};
ghost use Rattle.layout.specs.Resolved.{slot_of, callee_row};
ghost use Rattle.resolver.specs.Resolves.{Between, Entered, Placing, Places, PlacingAll, PlacesAll};

use language::kinds;
use layout::{HELD, NOBODY, functions, notes, rows, token};
use rules::operators;

// The slot of the nearest binding of a name.
fn slot(table: &[u32], size: usize, number: u32) -> u32
    requires { (TABLE ≤ length table.now) × (size ≤ TOKENS) }
    ensures { result ≡ slot_of number (names_in table.now size) }
{
    for k in (0..size).rev() {
        if notes::name(table, k) == number {
            return k as u32;
        }
    }
    0
}

fn name(table: &mut [u32], node: usize, size: usize)
    requires { (TABLE ≤ length table.old) × (node < NODES) × (row_word table.old node OWN < TOKENS)
        × (size ≤ TOKENS) }
    ensures { table.new ≡ put_note table.old (row_word table.old node OWN)
        (slot_of (token_value table.old (row_word table.old node OWN))
        (names_in table.old size)) }
{
    let own = rows::link(table, node, rows::OWN);
    let number = token::value(table, own);
    let at = slot(table, size, number);
    notes::put(table, own, at);
}

// What the second part of a node of this kind sees: the slots that its first part does, and mostly one more.
fn between(table: &mut [u32], node: usize, kind: u32, size: usize) -> usize
    requires { (TABLE ≤ length table.old) × (node < NODES) × (size < TOKENS)
        × (row_word table.old node OWN + 1 < TOKENS) }
    ensures { Between table.old table.new node kind size result }
{
    match kind {
        kinds::SEMI | kinds::WHILE | kinds::IF => size,
        kinds::LET => {
            let own = rows::link(table, node, rows::OWN);
            let number = token::value(table, own + 1);
            notes::put_name(table, size, number);
            size + 1
        }
        _ => {
            notes::put_name(table, size, HELD);
            size + 1
        }
    }
}

// The tree at `node`, where `size` slots of its frame are in use.
#[cycle(resolving)]
pub fn place(table: &mut [u32], node: usize, defs: usize, size: usize)
    requires { Placing table.old node defs size }
    ensures { Places table.old table.new node defs size }
{
    let kind = rows::word(table, node, rows::KIND);
    match kind {
        kinds::NAME => return name(table, node, size),
        rows::CALL => return call(table, node, defs, size),
        _ if rows::counts(kind) => return counted(table, node, defs, size),
        _ => (),
    }
    // No match on the count: between the tests the parts are placed, one after another.
    let count = operators::children(kind);
    if count == 0 {
        return;
    }
    let first = rows::link(table, node, rows::FIRST);
    let second = rows::link(table, node, rows::SECOND);
    let third = rows::link(table, node, rows::THIRD);
    place(table, first, defs, size);
    if count == 1 {
        return;
    }
    let inner = between(table, node, kind, size);
    place(table, second, defs, inner);
    if count == 2 {
        return;
    }
    place(table, third, defs, size);
}

// The row of the function that a call of this name means.
#[tactic(auto, unfolding(layout::specs::Resolved::callee_row))]
fn callee(table: &[u32], defs: usize, number: u32) -> u32
    requires { (TABLE ≤ length table.now) × ((k : ℕ) → k < defs → Headed table.now k) }
    ensures { result ≡ callee_row table.now defs number }
{
    match functions::find(table, defs, number) {
        Some(row) => row as u32,
        None => NOBODY,
    }
}

#[cycle(resolving)]
fn call(table: &mut [u32], node: usize, defs: usize, size: usize)
    requires { Placing table.old node defs size × (row_word table.old node KIND ≡ CALL) }
    ensures { Places table.old table.new node defs size }
{
    let own = rows::link(table, node, rows::OWN);
    let row = rows::link(table, node, rows::FIRST);
    let number = token::value(table, own);
    let head = callee(table, defs, number);
    notes::put(table, own, head);
    arguments(table, row, defs, size);
}

// The arguments or bounds from row `row` on, each of which waits in the slot above the one before.
#[cycle(resolving)]
fn arguments(table: &mut [u32], row: usize, defs: usize, size: usize)
    requires { PlacingAll table.old row defs size }
    ensures { PlacesAll table.old table.new row defs size }
{
    if row == 0 {
        return;
    }
    let part = rows::link(table, row, rows::EXPRESSION);
    let next = rows::link(table, row, rows::NEXT);
    place(table, part, defs, size);
    notes::put_name(table, size, HELD);
    arguments(table, next, defs, size + 1);
}

// The slots that the body of a `for` sees above the others: its name's, and those of the end and the step.
fn enter(table: &mut [u32], node: usize, size: usize)
    requires { (TABLE ≤ length table.old) × (node < NODES) × (size + 2 < TOKENS)
        × (row_word table.old node OWN + 1 < TOKENS) }
    ensures { Entered table.old table.new node size }
{
    let own = rows::link(table, node, rows::OWN);
    let number = token::value(table, own + 1);
    notes::put_name(table, size, number);
    notes::put_name(table, size + 1, HELD);
    notes::put_name(table, size + 2, HELD);
}

// A `for`: its bounds as arguments, then its body.
#[cycle(resolving)]
fn counted(table: &mut [u32], node: usize, defs: usize, size: usize)
    requires { Placing table.old node defs size × (counts (row_word table.old node KIND) ≡ true) }
    ensures { Places table.old table.new node defs size }
{
    let row = rows::link(table, node, rows::START);
    let body = rows::link(table, node, rows::PASS);
    arguments(table, row, defs, size);
    enter(table, node, size);
    place(table, body, defs, size + 3);
}
