// The shares of rows. Children lie before their node, so one pass from the first row on has those of a
// row's children when it comes to the row.
ghost use Rattle.std.specs.Prelude.{◌≡◌, ◌≤◌, ◌<◌, length};
ghost use Rattle.language.specs.Sizes.{NODES, TABLE};
ghost use Rattle.profiles.specs.Shares.{find_share, callee_share, reach, around_share, over_share};
ghost use Rattle.profiles.specs.Passes.{Summed, RowShare, Heads, AtRow, PassedTo};

use crate::shares;
use language::{NODES, TOKENS, kinds};
use layout::{functions, rows, token};
use rules::operators;

// The row of a node's arguments or bounds.
#[tactic(auto, unfolding(crate::specs::Shares::reach))]
fn reach(table: &[u32], row: usize) -> usize
    requires { (TABLE ≤ length table.now) × (row < NODES) }
    ensures { result ≡ reach table.now row }
{
    let named = rows::link(table, row, rows::FIRST);
    if row < named { 0 } else { named }
}

// One unit for a node, and its arguments or bounds, which are linked, so that nothing is counted.
fn arguments(table: &[u32], row: usize) -> u32
    requires { (TABLE ≤ length table.now) × (row < NODES) }
    ensures { Summed table.now (reach table.now row) 1 result }
{
    let mut sum = 1;
    let mut at = reach(table, row);
    while 0 < at {
        sum = shares::beside(sum, shares::part(table, at, rows::EXPRESSION));
        at = shares::earlier(table, at, rows::NEXT);
    }
    sum
}

// The share of the body of the newest of the first `seen` functions that has this name.
fn find(table: &[u32], seen: usize, name: u32) -> u32
    requires { Heads table.now seen }
    ensures { result ≡ find_share table.now name seen }
{
    for k in (0..seen).rev() {
        if functions::name(table, k) == name {
            return shares::get(table, NODES + k);
        }
    }
    0
}

// The share of a callee's body; a call of the function itself is endless.
#[tactic(auto, unfolding(crate::specs::Shares::callee_share))]
fn callee(table: &[u32], row: usize, own_name: u32, seen: usize) -> u32
    requires { AtRow table.now row seen }
    ensures { result ≡ callee_share table.now row own_name seen }
{
    let own = rows::link(table, row, rows::OWN);
    if TOKENS <= own {
        return 0;
    }
    let name = token::value(table, own);
    if name == own_name {
        return shares::going_on(own as u32);
    }
    find(table, seen, name)
}

// A loop, behind what it works out once or before each pass.
#[tactic(auto, unfolding(crate::specs::Shares::around_share))]
fn around(table: &[u32], row: usize, before: u32) -> u32
    requires { (TABLE ≤ length table.now) × (row < NODES) }
    ensures { result ≡ around_share table.now row before }
{
    let own = rows::word(table, row, rows::OWN);
    let body = shares::part(table, row, rows::PASS);
    shares::beside(before, shares::beside(body, shares::going_on(own)))
}

// A node with so many children and no list.
#[tactic(auto, unfolding(crate::specs::Shares::over_share))]
fn over(table: &[u32], row: usize, count: usize) -> u32
    requires { (TABLE ≤ length table.now) × (row < NODES) }
    ensures { result ≡ over_share table.now row count }
{
    if count == 0 {
        return 1;
    }
    let first = shares::beside(1, shares::part(table, row, rows::FIRST));
    match count {
        1 => first,
        2 => shares::beside(first, shares::part(table, row, rows::SECOND)),
        _ => {
            let second = shares::part(table, row, rows::SECOND);
            let third = shares::part(table, row, rows::THIRD);
            shares::beside(first, shares::instead(second, third))
        }
    }
}

// The share of a row within the function of this name, where the first `seen` functions are in sight.
fn share(table: &[u32], row: usize, own_name: u32, seen: usize) -> u32
    requires { AtRow table.now row seen }
    ensures { RowShare table.now row own_name seen result }
{
    let kind = rows::word(table, row, rows::KIND);
    match kind {
        rows::CALL => {
            let passed = arguments(table, row);
            shares::beside(passed, callee(table, row, own_name, seen))
        }
        kinds::WHILE => around(table, row, over(table, row, 1)),
        _ if rows::counts(kind) => around(table, row, arguments(table, row)),
        _ => over(table, row, operators::children(kind)),
    }
}

// The shares of all rows up to one, and of that one.
pub fn pass(table: &mut [u32], last: usize, own_name: u32, seen: usize) -> u32
    requires { AtRow table.old last seen }
    ensures { PassedTo table.old table.new last own_name seen result }
{
    for i in 0..last + 1 {
        let found = share(table, i, own_name, seen);
        shares::put(table, i, found);
    }
    shares::get(table, last)
}
