// Names found again. A name's number is the ordinal of its first token, and a sheet may have as many names as it has
// room for: so a name is not compared with every token before it, but led to the one that it can be. While tokens are
// written, the words behind theirs are free, and hold forks. A fork asks for one bit of one letter, and its two links
// lead on; a name that ends at a token that is spelled otherwise gets a fork of its own there, by a letter that tells
// the two apart. A way begins by a name's length, and its forks ask for different bits: so it is no longer than the
// bits of the name, or, where the name is very long, than there are such names.
ghost use Rattle.std.specs.Prelude.{◌≡◌, ◌/◌, ◌%◌, ◌≤◌, ◌<◌, length};
ghost use Rattle.language.specs.Sizes.{TABLE};
ghost use Rattle.tokens.specs.Forks as Forks;
ghost use Rattle.tokens.specs.Forks.{start_at, letter_at, Askable, Seekable, Ends, IsParting, Apart};
ghost use Rattle.tokens.specs.Forks.{Forkable, Forked, Hangable, Hung, Begun};
ghost use Rattle.tokens.specs.Parts.{part_of};

use crate::view::Part;
use language::TOKENS;
use layout::ROWS_AT;
use layout::memory::clear;

// The first forks ask nothing: each is where the ways of names of one length begin, the last for all that are longer.
const ROOTS: usize = 256;

// Forks begin where rows do, up to here; a word for each token follows, and then how many forks there are.
pub const STARTS_AT: usize = 8 * TOKENS + 4 * ROOTS;

const FORKS_AT: usize = 9 * TOKENS + 4 * ROOTS;

// The forks at which ways begin. Their links are all token 0, which is to come.
pub fn begin(table: &mut [u32])
    requires { TABLE ≤ length table.old }
    ensures { Begun table.old table.new }
{
    clear(table, ROWS_AT, ROWS_AT + 4 * ROOTS);
    table[FORKS_AT] = ROOTS as u32;
}

// The word with the link at which the ways of names of so many bytes begin.
fn start(size: usize) -> usize
    ensures { result ≡ start_at size }
{
    if size < ROOTS - 1 {
        return 4 * (TOKENS + size) + 2;
    }
    4 * (TOKENS + (ROOTS - 1)) + 2
}

// The word with the link of a fork that a spelling takes.
fn link(table: &[u32], fork: usize, name: &Part) -> usize
    requires { Askable table.now fork }
    ensures { result ≡ Forks.link table.now (part_of name.now) fork }
{
    let place = table[4 * fork] as usize;
    let bit = table[4 * fork + 1];
    let asked = name.letter(place);
    let turn = asked / bit % 2;
    4 * fork + 2 + turn as usize
}

// The word with the link at which the way of a spelling ends.
pub fn way_end(table: &[u32], count: usize, name: &Part) -> usize
    requires { Seekable table.now count }
    ensures { Ends table.now (part_of name.now) result }
{
    let mut at = start(name.len());
    let mut to = table[at] as usize;
    // From link to link, which no index tells.
    while TOKENS <= to {
        at = link(table, to, name);
        to = table[at] as usize;
    }
    at
}

// The first letter that differs in bytes that are as many; none, where they are the same.
fn difference(old: &[u8], new: &[u8]) -> Option<usize>
    requires { length old.now ≡ length new.now }
    ensures { IsParting old.now new.now result }
{
    for i in 0..old.len() {
        if old[i] != new[i] {
            return Some(i);
        }
    }
    None
}

// A letter that tells two spellings apart; none, where they are the same. Bytes that lie in a sheet are compared where
// they lie: asked of the texts one by one, each has to ask two views, and a long name takes twice as long.
fn compare(old: &Part, new: &Part) -> Option<usize>
    ensures { IsParting (part_of old.now) (part_of new.now) result }
{
    let size = old.to - old.from;
    let other = new.to - new.from;
    if size != other {
        return Some(size.min(other));
    }
    if let (Some(before), Some(bytes)) = (old.bytes(), new.bytes()) {
        return difference(before, bytes);
    }
    for i in 0..size {
        if old.text.byte(old.from + i) != new.text.byte(new.from + i) {
            return Some(i);
        }
    }
    None
}

// The least bit by which two letters differ.
fn bit_between(old: u32, new: u32) -> u32
    requires { (old ≤ 256) × (new ≤ 256) × (old ≡ new → ⊥) }
    ensures { Apart old new result }
{
    // A bit is twice the one before it; a fork asks by the same division.
    let mut bit = 1;
    while old / bit % 2 == new / bit % 2 {
        bit *= 2;
    }
    bit
}

// A fork more, in the place of the link at a word: it tells that link's token, whose letter here is old, from token
// `count`, whose letter is new.
fn fork(table: &mut [u32], at: usize, count: usize, place: usize, old: u32, new: u32)
    requires { Forkable table.old at count place old new }
    ensures { Forked table.old table.new at count place old new }
{
    let leaf = table[at];
    let forks = table[FORKS_AT];
    let next = TOKENS + forks as usize;
    let bit = bit_between(old, new);
    let turn = (old / bit % 2) as usize;
    table[4 * next] = place as u32;
    table[4 * next + 1] = bit;
    table[4 * next + 2 + turn] = leaf;
    table[4 * next + 3 - turn] = count as u32;
    table[at] = next as u32;
    table[FORKS_AT] = forks + 1;
}

// Is the name, which is to be token `count`, spelled like the old one, at which its way ends? If not, it gets a fork
// there.
pub fn hang(table: &mut [u32], at: usize, count: usize, old: &Part, name: &Part) -> bool
    requires { Hangable table.old at count (part_of old.now) }
    ensures { Hung table.old table.new at count (part_of old.now) (part_of name.now) result }
{
    match compare(old, name) {
        None => true,
        Some(i) => {
            fork(table, at, count, i, old.letter(i), name.letter(i));
            false
        }
    }
}
