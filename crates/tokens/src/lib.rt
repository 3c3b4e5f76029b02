// The tokens of a sheet: its bytes are split into the longest pieces, and each token is written into
// table memory, with the number of its name where it is one.
#![tactic(auto)]

ghost use Rattle.std.specs.Prelude.{◌≡◌, ◌≤◌, length};
ghost use Rattle.language.specs.Sizes.{TABLE};
ghost use Rattle.language.specs.Tokens.{NAME};
ghost use Rattle.tokens.specs.Found.{Searchable, TableWorth, bytes_of};
ghost use Rattle.tokens.specs.Forks.{Foretold};
ghost use Rattle.tokens.specs.Answer.{IsSplit};
ghost use Rattle.tokens.specs.Editions.{meant};
ghost use Rattle.tokens.specs.Parts.{part_of};
ghost use Rattle.tokens.specs.Shown.{text_of};

pub mod answer;
pub mod bytes;
mod comments;
pub mod edition;
mod floats;
pub mod forks;
pub mod hexadecimal;
mod marks;
mod names;
mod parts;
pub mod pieces;
pub mod view;
mod words;
mod worth;

use crate::answer::Unsplit;
use crate::edition::Edition;
use crate::pieces::Piece;
use crate::view::{Part, Place, Text};
use language::{SOURCE, TOKENS, kinds};
use numbers::Flaw;

// What a token is worth in the table whose next one it is to be: a name its number.
fn table_worth(table: &mut [u32], count: usize, kind: u32, part: &Part, worth: u64) -> u64
    requires { kind ≡ NAME → Searchable (text_of part.now.text.now) table.old count (part_of part.now) }
    ensures { TableWorth (text_of part.now.text.now) table.old count kind (part_of part.now) worth result
        × Foretold (bytes_of (text_of part.now.text.now) table.old) table.old table.new count kind
        (part_of part.now) }
{
    if kind == kinds::NAME {
        return u64::from(names::name_number(table, count, part));
    }
    worth
}

// Splits the text into the tokens of an edition and writes them into the table, as far as the first flaw. The words of
// rows and functions are used for it and left anyhow; all others stay as they were.
pub fn split(edition: Edition, text: &Text, table: &mut [u32]) -> Result<usize, Unsplit>
    requires { TABLE ≤ length table.old }
    ensures { IsSplit (meant edition) (text_of text.now) table.old
        table.new result }
{
    if text.longer(SOURCE) {
        return Err(Unsplit::TooLong);
    }
    let size = text.len();
    forks::begin(table);
    let mut at = 0;
    let mut count = 0;
    // Each step passes the blanks, which have a loop of their own, and the piece behind them.
    while at < size {
        let begin = text.run_end(at, &bytes::Blank);
        if begin == size {
            return Ok(count);
        }
        let place = Place {
            text: &*text,
            at: begin,
            here: text.byte(begin),
        };
        match pieces::piece_of(edition, &place) {
            Ok(Piece::Space(end)) => {
                at = end;
            }
            Ok(Piece::Token { kind, end, worth }) => {
                if count == TOKENS {
                    return Err(Unsplit::Stopped(Flaw::ManyTokens, begin));
                }
                let part = Part {
                    text: &*text,
                    from: begin,
                    to: end,
                };
                let both = table_worth(table, count, kind, &part, worth);
                let high = layout::floats::high(both);
                let low = layout::floats::low(both);
                layout::token::put(table, count, kind, begin as u32, end as u32, high, low);
                count += 1;
                at = end;
            }
            Err(flaw) => {
                return Err(Unsplit::Stopped(flaw, begin));
            }
        }
    }
    Ok(count)
}
