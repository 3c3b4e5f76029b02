// Expressions: the checker calls itself on a node's children, from left to right, before the node asks
// anything. A child covers fewer tokens than its node, which is the number that falls (S131).
ghost use Rattle.std.specs.Prelude.{◌≡◌, ◌+◌, ◌≤◌, ◌<◌, length, true};
ghost use Rattle.language.specs.Sizes.{TOKENS, NODES, TABLE};
ghost use Rattle.language.specs.Tokens.{LET};
ghost use Rattle.layout.specs.Table.{KIND, OWN, row_word};
ghost use Rattle.layout.specs.Rows.{CALL};
ghost use Rattle.layout.specs.Decode.{counts};
ghost use Rattle.rules.specs.Asked.{Children};
ghost use Rattle.phrase_types.specs.Inferred.{name_answer, Ready, Inferred, ReadyAll, InferredAll};

use language::kinds;
use layout::{rows, token, types, variables};
use numbers::Reason;
use rules::sight::{Taker, called, expected, variable};
use rules::{Fault, operators};

// What is in sight: the first `seen` functions, and the first `binds` variables.
#[derive(Clone, Copy)]
pub struct Sight {
    pub seen: usize,
    pub binds: usize,
}

// The expressions of a list, which are the arguments of a call or the bounds of a `for`: how many, and whether
// each has the type that is wanted of it. A call asks for the number first, so it is told whether they suit or not.
#[derive(Clone, Copy)]
pub struct Passed {
    pub count: usize,
    pub suited: bool,
}

// A name has the type of the nearest variable that is called so.
fn name(table: &[u32], node: usize, binds: usize) -> Result<u32, Fault>
    requires { (TABLE ≤ length table.now) × (node < NODES) × (row_word table.now node OWN < TOKENS)
        × (binds ≤ TOKENS) }
    ensures { result ≡ name_answer table.now node binds }
{
    let at = rows::word(table, node, rows::OWN);
    let token = rows::link(table, node, rows::OWN);
    let number = token::value(table, token);
    variable(table, binds, number).ok_or(Fault {
        why: Reason::NoBinding,
        place: at,
    })
}

// The type of the tree at `node`, by what is in sight of it.
#[cycle(typing)]
pub fn type_at(table: &mut [u32], node: usize, sight: Sight) -> Result<u32, Fault>
    requires { Ready table.old node sight.seen sight.binds }
    ensures { Inferred table.old table.new node sight.seen sight.binds result }
{
    let kind = rows::word(table, node, rows::KIND);
    match kind {
        kinds::NAME => name(table, node, sight.binds),
        rows::CALL => call(table, node, sight),
        kinds::LET => bind(table, node, sight),
        _ if rows::counts(kind) => counted(table, node, sight),
        _ => match operators::children(kind) {
            0 => Ok(operators::constant(kind)),
            1 => over_one(table, node, sight),
            2 => over_two(table, node, sight),
            _ => branch(table, node, sight),
        },
    }
}

// A node with one child.
#[cycle(typing)]
fn over_one(table: &mut [u32], node: usize, sight: Sight) -> Result<u32, Fault>
    requires { Ready table.old node sight.seen sight.binds × Children (row_word table.old node KIND) 1 }
    ensures { Inferred table.old table.new node sight.seen sight.binds result }
{
    let kind = rows::word(table, node, rows::KIND);
    let at = rows::word(table, node, rows::OWN);
    let child = rows::link(table, node, rows::FIRST);
    let inside = type_at(table, child, sight)?;
    operators::after_child(kind, inside, at)
}

// A node with two children, both of which see what the node sees.
#[cycle(typing)]
fn over_two(table: &mut [u32], node: usize, sight: Sight) -> Result<u32, Fault>
    requires { Ready table.old node sight.seen sight.binds × Children (row_word table.old node KIND) 2
        × (row_word table.old node KIND ≡ LET → ⊥) }
    ensures { Inferred table.old table.new node sight.seen sight.binds result }
{
    let kind = rows::word(table, node, rows::KIND);
    let at = rows::word(table, node, rows::OWN);
    let left = rows::link(table, node, rows::FIRST);
    let right = rows::link(table, node, rows::SECOND);
    let first = type_at(table, left, sight)?;
    let second = type_at(table, right, sight)?;
    operators::after_children(kind, first, second, at)
}

// `let` types what it binds, and its body with that variable in sight.
#[cycle(typing)]
fn bind(table: &mut [u32], node: usize, sight: Sight) -> Result<u32, Fault>
    requires { Ready table.old node sight.seen sight.binds × (row_word table.old node KIND ≡ LET) }
    ensures { Inferred table.old table.new node sight.seen sight.binds result }
{
    let token = rows::link(table, node, rows::OWN);
    let number = token::value(table, token + 1);
    let bound = rows::link(table, node, rows::FIRST);
    let body = rows::link(table, node, rows::SECOND);
    let first = type_at(table, bound, sight)?;
    variables::put(table, sight.binds, number, first);
    let inner = Sight {
        binds: sight.binds + 1,
        ..sight
    };
    type_at(table, body, inner)
}

// `for` types its bounds, and its body with its name in sight, which is an int, before it asks.
#[cycle(typing)]
fn counted(table: &mut [u32], node: usize, sight: Sight) -> Result<u32, Fault>
    requires { Ready table.old node sight.seen sight.binds × (counts (row_word table.old node KIND) ≡ true) }
    ensures { Inferred table.old table.new node sight.seen sight.binds result }
{
    let at = rows::word(table, node, rows::OWN);
    let token = rows::link(table, node, rows::OWN);
    let number = token::value(table, token + 1);
    let start = rows::link(table, node, rows::START);
    let body = rows::link(table, node, rows::PASS);
    let bounds = arguments(table, start, sight, Taker::For, 0, true)?;
    variables::put(table, sight.binds, number, types::INT);
    let inner = Sight {
        binds: sight.binds + 1,
        ..sight
    };
    let pass = type_at(table, body, inner)?;
    operators::counted(bounds.count, bounds.suited, pass, at)
}

// `if`, its condition and its branches.
#[cycle(typing)]
fn branch(table: &mut [u32], node: usize, sight: Sight) -> Result<u32, Fault>
    requires { Ready table.old node sight.seen sight.binds × Children (row_word table.old node KIND) 3 }
    ensures { Inferred table.old table.new node sight.seen sight.binds result }
{
    let at = rows::word(table, node, rows::OWN);
    let test = rows::link(table, node, rows::FIRST);
    let chosen = rows::link(table, node, rows::SECOND);
    let other = rows::link(table, node, rows::THIRD);
    let condition = type_at(table, test, sight)?;
    let first = type_at(table, chosen, sight)?;
    let second = type_at(table, other, sight)?;
    operators::branches(condition, first, second, at)
}

// A call types all its arguments before it asks whom it calls.
#[cycle(typing)]
fn call(table: &mut [u32], node: usize, sight: Sight) -> Result<u32, Fault>
    requires { Ready table.old node sight.seen sight.binds × (row_word table.old node KIND ≡ CALL) }
    ensures { Inferred table.old table.new node sight.seen sight.binds result }
{
    let at = rows::word(table, node, rows::OWN);
    let token = rows::link(table, node, rows::OWN);
    let number = token::value(table, token);
    let callee = called(table, sight.seen, number);
    let row = rows::link(table, node, rows::FIRST);
    let passed = arguments(table, row, sight, Taker::Call(callee), 0, true)?;
    operators::call(table, callee, passed.count, passed.suited, at)
}

// The expressions of a list from row `row` on, the first of which is its expression k.
#[cycle(typing)]
fn arguments(
    table: &mut [u32],
    row: usize,
    sight: Sight,
    taker: Taker,
    k: usize,
    suited: bool,
) -> Result<Passed, Fault>
    requires { ReadyAll table.old row sight.seen sight.binds taker k }
    ensures { InferredAll table.old table.new row sight.seen sight.binds taker k suited result }
{
    if row == 0 {
        return Ok(Passed { count: k, suited });
    }
    let child = rows::link(table, row, rows::EXPRESSION);
    let next = rows::link(table, row, rows::NEXT);
    let wanted = expected(table, taker, k);
    let first = type_at(table, child, sight)?;
    let suits = suited && first == wanted;
    arguments(table, next, sight, taker, k + 1, suits)
}
