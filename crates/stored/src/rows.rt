// The tokens of a stored sheet in table memory. Each lies there as the one token of a text of its own, which
// begins at 0.
ghost use Rattle.stored.specs.Rows.{Keepable, Kept};

use crate::entries::Entry;
use crate::names::table_worth;
use language::{SOURCE, TOKENS};
use layout::{floats, token};
use tokens::forks::STARTS_AT;

// Writes the token on the line that begins at a place behind the others, where there is room for it and the bytes of
// all so far are not too many; else the sheet is refused in the end, and the table stays. Where its
// line begins is told, too, for whoever compares it.
pub fn keep(stored: &[u8], table: &mut [u32], count: usize, bytes: usize, at: usize, entry: Entry)
    requires { Keepable stored.now table.old count bytes entry.kind at entry.end }
    ensures { Kept stored.now table.old table.new count bytes entry.kind entry.worth at entry.end }
{
    if TOKENS <= count || SOURCE < bytes {
        return;
    }
    let both = table_worth(stored, table, count, at, entry);
    let high = floats::high(both);
    let low = floats::low(both);
    let size = (entry.end - at) / 2;
    table[STARTS_AT + count] = at as u32;
    token::put(table, count, entry.kind, 0, size as u32, high, low);
}
