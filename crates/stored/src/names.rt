// The numbers of names. Two names are spelled the same exactly where their lines are, so the digits are
// compared as they stand. The functions of `tokens::names` do the same of a text; the contracts of these speak of lines of
// digits, and what is alike of both is `tokens::forks`.
ghost use Rattle.std.specs.Prelude.{◌≡◌};
ghost use Rattle.std.proofs.Math.Seq.{slice};
ghost use Rattle.language.specs.Tokens.{NAME};
ghost use Rattle.tokens.specs.Forks.{Planted, Foretold};
ghost use Rattle.stored.specs.Names.{Searchable, First, Numbered, TableWorth, digits_of};

use crate::entries::Entry;
use language::kinds;
use layout::{PUTCHAR, token};
use tokens::forks::{STARTS_AT, hang, way_end};
use tokens::view::{Part, Text, View};

// The ordinal of the first of the tokens in the table whose line has the digits from p up to q, which are to be the
// next one; where none has, their count. Where the line of a token begins is told behind the forks.
fn first_alike(stored: &[u8], table: &mut [u32], count: usize, p: usize, q: usize) -> usize
    requires { Searchable stored.now table.old count p q }
    ensures { First stored.now table.old count (slice p q stored.now) result
        × Planted (digits_of stored.now table.old) table.old table.new count
        (slice p q stored.now) }
{
    if count == 0 {
        return 0;
    }
    let text = Text {
        first: stored,
        second: stored,
        view: View::Plain,
    };
    let name = Part {
        text: &text,
        from: p,
        to: q,
    };
    let at = way_end(table, count, &name);
    let leaf = table[at] as usize;
    let from = table[STARTS_AT + leaf] as usize;
    let to = from + token::end(table, leaf) as usize * 2;
    let old = Part {
        text: &text,
        from,
        to,
    };
    if hang(table, at, count, &old, &name) {
        return leaf;
    }
    count
}

// The number of the name on the line from p up to q, which is to be the next token of the table.
fn name_number(stored: &[u8], table: &mut [u32], count: usize, p: usize, q: usize) -> u32
    requires { Searchable stored.now table.old count p q }
    ensures { Numbered stored.now table.old count p q result
        × Planted (digits_of stored.now table.old) table.old table.new count
        (slice p q stored.now) }
{
    let ordinal = first_alike(stored, table, count, p, q);
    let text = Text {
        first: stored,
        second: stored,
        view: View::Line { from: p, to: q },
    };
    let all = Part {
        text: &text,
        from: 0,
        to: text.len(),
    };
    if all.spells(b"putchar") {
        return PUTCHAR;
    }
    ordinal as u32
}

// What the token on the line that begins at a place is worth in the table whose next one it is to be: a name its
// number.
pub fn table_worth(stored: &[u8], table: &mut [u32], count: usize, at: usize, entry: Entry) -> u64
    requires { entry.kind ≡ NAME → Searchable stored.now table.old count at entry.end }
    ensures { TableWorth stored.now table.old count entry.kind at entry.end entry.worth result
        × Foretold (digits_of stored.now table.old) table.old table.new count
        entry.kind (slice at entry.end stored.now) }
{
    if entry.kind == kinds::NAME {
        return u64::from(name_number(stored, table, count, at, entry.end));
    }
    entry.worth
}
