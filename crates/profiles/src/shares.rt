// Shares: of a tree its first endless node, or else its count of units, in one word. A count that is too
// large goes no further than FULL; what lies above it is an endless node, by its own token. They stay numbers because
// they are words of lent memory (specs/Shares); `told` makes a Result of the last.
ghost use Rattle.std.specs.Prelude.{◌≡◌, ◌+◌, ◌*◌, ◌≤◌, ◌<◌, length};
ghost use Rattle.language.specs.Sizes.{TOKENS, NODES, TABLE};
ghost use Rattle.profiles.specs.Shares.{most, going_on, beside, instead, share_word, put_share, earlier, part};

use language::{PAY_COUNT, TOKENS};
use layout::{VARIABLES_AT, rows};

pub const FULL: u32 = PAY_COUNT + 1;

const LAST: u32 = TOKENS as u32;

#[tactic(auto, unfolding(crate::specs::Shares::most))]
fn most(count: u32) -> u32
    ensures { result ≡ most count }
{
    count.min(FULL)
}

// The share of an endless node.
#[tactic(auto, unfolding(crate::specs::Shares::going_on))]
pub fn going_on(own: u32) -> u32
    ensures { result ≡ going_on own }
{
    FULL + 1 + own.min(LAST)
}

// Of two trees that are both begun.
#[tactic(auto, unfolding(crate::specs::Shares::beside))]
pub fn beside(a: u32, b: u32) -> u32
    ensures { result ≡ beside a b }
{
    if FULL < a {
        return a;
    }
    if FULL < b {
        return b;
    }
    most(a + b)
}

// Of two trees of which one is begun: the dearer one.
#[tactic(auto, unfolding(crate::specs::Shares::instead))]
pub fn instead(a: u32, b: u32) -> u32
    ensures { result ≡ instead a b }
{
    if FULL < a {
        return a;
    }
    if FULL < b {
        return b;
    }
    a.max(b)
}

// Share i: that of a row, or behind them that of a function's body.
pub fn get(table: &[u32], i: usize) -> u32
    requires { (TABLE ≤ length table.now) × (i < 2 * TOKENS) }
    ensures { result ≡ share_word table.now i }
{
    table[VARIABLES_AT + i]
}

pub fn put(table: &mut [u32], i: usize, share: u32)
    requires { (TABLE ≤ length table.old) × (i < 2 * TOKENS) }
    ensures { table.new ≡ put_share table.old i share }
{
    table[VARIABLES_AT + i] = share;
}

// The row that word k of a row names, which stands before it.
#[tactic(auto, unfolding(crate::specs::Shares::earlier))]
pub fn earlier(table: &[u32], row: usize, k: usize) -> usize
    requires { (TABLE ≤ length table.now) × (row < NODES) × (k < 5) }
    ensures { result ≡ earlier table.now row k }
{
    let named = rows::link(table, row, k);
    if named < row { named } else { 0 }
}

// The share of that row.
pub fn part(table: &[u32], row: usize, k: usize) -> u32
    requires { (TABLE ≤ length table.now) × (row < NODES) × (k < 5) }
    ensures { result ≡ part table.now row k }
{
    let named = earlier(table, row, k);
    get(table, named)
}
