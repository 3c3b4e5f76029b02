// What may be asked of a sheet without running it: whether its last expression is a number alone, and
// whether it has a function of a name that takes and gives values of some types.
#![tactic(auto)]

ghost use Rattle.std.specs.Prelude.{◌≡◌, ℕ, ◌+◌, ◌≤◌, ◌<◌, length};
ghost use Rattle.language.specs.Sizes.{TABLE, NODES};
ghost use Rattle.language.specs.Edition.{pair_in};
ghost use Rattle.language.specs.Outline.{Outline};
ghost use Rattle.layout.specs.Table.{ARITY, row_word};
ghost use Rattle.tokens.specs.Shown.{text_of};
ghost use Rattle.outlines.specs.Reports.{wanted_by, outlined_report};
ghost use Rattle.outlines.specs.Words.{spelled_in, takes_in, Whole, suits_in, any_from, Rooted, Drawn};

use language::{TABLE, kinds};
use layout::{functions, memory, rows, token};
use numbers::Refusal;
use sheets::Verdict;
use tokens::view::{Text, View};

// What a sheet has: a last expression that is a number alone, and a function that was wanted. Two answers, neither of
// which says something of the other.
#[derive(Clone, Copy)]
pub struct Found {
    pub alone: bool,
    pub there: bool,
}

// A function that is wanted: its name, the numbers of the types that it takes, and that of the one it gives.
#[derive(Clone, Copy)]
pub struct Sought<'a> {
    pub name: &'a [u8],
    pub takes: &'a [u32],
    pub gives: u32,
}

// The bytes of a text from one place up to another are these. (Whether the text has as many, as `Text::stands_within` asks,
// is not known of any table.)
fn spelled(text: &Text, at: usize, end: usize, name: &[u8]) -> bool
    ensures { result ≡ spelled_in (text_of text.now) at end name.now }
{
    if end < at {
        return false;
    }
    if end - at != name.len() {
        return false;
    }
    for (i, b) in name.iter().enumerate() {
        if text.byte(at + i) != *b {
            return false;
        }
    }
    true
}

// The function at a row takes values of these types.
fn takes_these(table: &[u32], row: usize, takes: &[u32]) -> bool
    requires { (TABLE ≤ length table.now) × (row + row_word table.now row ARITY < NODES) }
    ensures { result ≡ takes_in table.now row takes.now }
{
    if rows::link(table, row, rows::ARITY) != takes.len() {
        return false;
    }
    for (i, kind) in takes.iter().enumerate() {
        if rows::word(table, row + 1 + i, rows::TYPE) != *kind {
            return false;
        }
    }
    true
}

// Function k is the one that is wanted.
fn suits(text: &Text, table: &[u32], k: usize, sought: &Sought) -> bool
    requires { (TABLE ≤ length table.now) × Whole table.now k }
    ensures { result ≡ suits_in (text_of text.now) table.now k (wanted_by sought.now) }
{
    let row = functions::row(table, k);
    let named = rows::link(table, row, rows::OWN) + 1;
    let at = token::place(table, named) as usize;
    let end = token::end(table, named) as usize;
    spelled(text, at, end, sought.name)
        && takes_these(table, row, sought.takes)
        && rows::word(table, row, rows::RESULT) == sought.gives
}

// One of the first `seen` functions is.
fn any_suits(text: &Text, table: &[u32], seen: usize, sought: &Sought) -> bool
    requires { (TABLE ≤ length table.now) × ((k : ℕ) → k < seen → Whole table.now k) }
    ensures { result ≡ any_from (text_of text.now) table.now (wanted_by sought.now) 0 seen }
{
    for k in 0..seen {
        if suits(text, table, k, sought) {
            return true;
        }
    }
    false
}

// What is told of a sheet that was examined; where a refusal has its place is told by check.
fn drawn(text: &Text, table: &[u32], seen: Verdict, sought: &Sought) -> Result<Found, Refusal>
    requires { Rooted table.now seen }
    ensures { Drawn (text_of text.now) table.now seen (wanted_by sought.now) result }
{
    let program = seen.map_err(|r| r.why)?.program;
    Ok(Found {
        alone: rows::word(table, program.root, rows::KIND) == kinds::NUMBER,
        there: any_suits(text, table, program.functions, sought),
    })
}

// What is told of two sheets that are read as one, in the edition that a number names, with a function that
// is wanted.
pub fn outline(
    edition: u32,
    first: &[u8],
    second: &[u8],
    table: &mut [u32],
    sought: &Sought,
) -> Result<Found, Refusal>
    ensures { Outline (pair_in edition first.now second.now) (wanted_by sought.now)
        table.old (outlined_report result) table.new }
{
    if table.len() < TABLE {
        return Err(Refusal::ShortMemory);
    }
    let text = Text {
        first,
        second,
        view: View::Joined,
    };
    let seen = sheets::examine(edition, &text, table);
    let answer = drawn(&text, table, seen, sought);
    memory::clear(table, 0, TABLE);
    answer
}
