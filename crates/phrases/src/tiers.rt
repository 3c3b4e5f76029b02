// Assign, the levels of operators, Un and Atom.
ghost use Rattle.std.specs.Prelude.{◌≡◌, ◌+◌, ◌≤◌};
ghost use Rattle.phrases.specs.Parts.{Room, Yields, Continues, Assign, Tier, Un, Atom};

use crate::items::until;
use crate::names::named;
use crate::operators::{LEVEL_OR, OPERAND, after, is_constant, is_prefix, tightness};
use crate::parts::{Read, around, node, over, pair};
use language::kinds;
use layout::rows::{PREFIX, put};
use layout::token::kind;

// `:=` does not chain.
#[cycle(phrases)]
#[tactic(auto, using(crate::proofs::OperandLaws::assign_ways))]
pub fn assign(table: &mut [u32], count: usize, at: usize, free: usize) -> Read
    requires { Room count table.old at free }
    ensures { Yields (Assign at) count table.old at free result table.new }
{
    let read = tier(table, count, at, free, LEVEL_OR);
    let Ok(target) = read.part() else {
        return read;
    };
    if kind(table, count, target.next) != kinds::BECOMES {
        return read;
    }
    let value = tier(table, count, target.next + 1, target.free, LEVEL_OR);
    pair(table, kinds::BECOMES, target.next, target.root, value)
}

// Or, And, Cmp, Sum, Prod and Un, all by one function: operands with operators between them that bind
// at least as tightly as `least`.
#[cycle(phrases)]
pub fn tier(table: &mut [u32], count: usize, at: usize, free: usize, least: u32) -> Read
    requires room { Room count table.old at free }
    requires le_least { (1 ≤ least) × (least ≤ 7) × (least ≡ 4 → ⊥) }
    ensures { Yields (Tier least at) count table.old at free result table.new }
{
    let read = un(table, count, at, free);
    let Ok(first) = read.part() else {
        return read;
    };
    rest(
        table, count, first.next, first.free, first.root, least, OPERAND,
    )
}

// The operators behind a left operand whose root `left` is the last row, from those that bind as
// tightly as `least` up to `most`. What is read becomes the next one's left operand.
#[cycle(phrases)]
fn rest(
    table: &mut [u32],
    count: usize,
    at: usize,
    free: usize,
    left: u32,
    least: u32,
    most: u32,
) -> Read
    requires room { Room count table.old at free }
    requires free_value { free ≡ left + 1 }
    requires le_least { (1 ≤ least) × (least ≤ most) × (most ≤ 7) × (least ≡ 4 → ⊥) }
    ensures { Continues least most count table.old at left free result table.new }
{
    let k = kind(table, count, at);
    let p = tightness(k);
    if p < least || p > most {
        return Read::tree(left, at);
    }
    let read = tier(table, count, at + 1, free, p + 1);
    let Ok(right) = read.part() else {
        return read;
    };
    put(table, right.free, k, at as u32, left, right.root, 0);
    let joined = right.free as u32;
    rest(
        table,
        count,
        right.next,
        right.free + 1,
        joined,
        least,
        after(p),
    )
}

// Operators before an Atom.
#[cycle(phrases)]
fn un(table: &mut [u32], count: usize, at: usize, free: usize) -> Read
    requires { Room count table.old at free }
    ensures { Yields (Un at) count table.old at free result table.new }
{
    let k = kind(table, count, at);
    if is_prefix(k) {
        let operand = un(table, count, at + 1, free);
        over(table, PREFIX + k, at, operand)
    } else {
        atom(table, count, at, free)
    }
}

// A constant, a number, a float number, a name, a call, a Group or a Block.
#[cycle(phrases)]
fn atom(table: &mut [u32], count: usize, at: usize, free: usize) -> Read
    requires { Room count table.old at free }
    ensures { Yields (Atom at) count table.old at free result table.new }
{
    let k = kind(table, count, at);
    if is_constant(k) {
        return node(table, free, at + 1, k, at, 0, 0, 0);
    }
    match k {
        kinds::NUMBER | kinds::FLOAT_NUMBER => node(table, free, at + 1, k, at, 0, 0, 0),
        kinds::NAME => named(table, count, at, free),
        kinds::LPAR => {
            let inside = until(table, count, at + 1, free, kinds::RPAR);
            around(table, kinds::LPAR, at, inside)
        }
        kinds::LBRACE => {
            let inside = until(table, count, at + 1, free, kinds::RBRACE);
            around(table, kinds::LBRACE, at, inside)
        }
        _ => Read::failed(at),
    }
}
