// Stored sheets: lines of hexadecimal, a count and then one token a line. Any bytes are read as such lines,
// in their order, and the tokens written into table memory; or it is told which line is wrong and why.
#![tactic(auto)]

ghost use Rattle.std.specs.Prelude.{◌≤◌, length};
ghost use Rattle.language.specs.Sizes.{TOKENS, TABLE};
ghost use Rattle.tokens.specs.Editions.{meant};
ghost use Rattle.stored.specs.Answer.{Counted, IsStored};

mod entries;
mod lines;
mod names;
mod rows;

use crate::entries::entry_at;
use crate::lines::count_of;
use crate::rows::keep;
use language::{SOURCE, TOKENS};
use numbers::{Flaw, Refusal};
use tokens::edition::Edition;
use tokens::forks::begin;

// Why a stored sheet is refused, and the line at which this is told; 0 where it is told of no line, as the report of C
// has it and StoredDenies says. A line is no place of a text, so this is no `numbers::Located`.
#[derive(Clone, Copy)]
pub struct Denied {
    pub why: Refusal,
    pub line: usize,
}

// The lines behind the count. They are all looked at, also where they are more than were counted or than
// the table has room for: a faulty line is told before a wrong count, and that before too many bytes.
fn tokens_of(
    edition: Edition,
    stored: &[u8],
    table: &mut [u32],
    counted: usize,
) -> Result<usize, Denied>
    requires { Counted stored.now table.old counted }
    ensures { IsStored (meant edition) stored.now table.old table.new result }
{
    begin(table);
    let mut at = 5;
    let mut count = 0;
    let mut bytes = 0;
    // A step is as long as a line.
    while at < stored.len() {
        match entry_at(edition, stored, at) {
            Ok(entry) => {
                bytes += (entry.end - at) / 2;
                keep(stored, table, count, bytes, at, entry);
                count += 1;
                at = entry.end + 1;
            }
            Err(why) => {
                return Err(Denied {
                    why,
                    line: count + 2,
                });
            }
        }
    }
    if count != counted {
        return Err(Denied {
            why: Refusal::WrongCount,
            line: 1,
        });
    }
    if SOURCE < bytes {
        return Err(Denied {
            why: Refusal::LongSource,
            line: 0,
        });
    }
    Ok(count)
}

// Reads a stored sheet as one of an edition.
pub fn read(edition: Edition, stored: &[u8], table: &mut [u32]) -> Result<usize, Denied>
    requires { TABLE ≤ length table.old }
    ensures { IsStored (meant edition) stored.now table.old table.new result }
{
    match count_of(stored) {
        Some(counted) if counted <= TOKENS => tokens_of(edition, stored, table, counted),
        Some(_) => Err(Denied {
            why: Refusal::Text(Flaw::ManyTokens),
            line: 1,
        }),
        None => Err(Denied {
            why: Refusal::NotHexadecimal,
            line: 1,
        }),
    }
}
