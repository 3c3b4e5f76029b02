// What stands on a line of a stored sheet: one token and nothing else, or something that is refused.
ghost use Rattle.std.specs.Prelude.{◌<◌, length};
ghost use Rattle.tokens.specs.Editions.{meant};
ghost use Rattle.stored.specs.Lines.{LineTo};
ghost use Rattle.stored.specs.Entries.{IsEntry};

use crate::lines::line_at;
use numbers::Refusal;
use tokens::edition::Edition;
use tokens::pieces::{Piece, piece_at};
use tokens::view::{Text, View};

// A token, what it is worth, and the LF that ends its line.
#[derive(Clone, Copy)]
pub struct Entry {
    pub kind: u32,
    pub worth: u64,
    pub end: usize,
}

// What the digits between two places tell. The longest piece at their begin is all of them, or they are not
// one token.
fn token_on(edition: Edition, stored: &[u8], at: usize, end: usize) -> Result<Entry, Refusal>
    requires { LineTo stored.now at end }
    ensures { IsEntry (meant edition) stored.now at result }
{
    let text = Text {
        first: stored,
        second: stored,
        view: View::Line { from: at, to: end },
    };
    match piece_at(edition, &text, 0) {
        Ok(
            Piece::Token {
                kind,
                end: size,
                worth,
            },
        ) if size == text.len() => Ok(Entry { kind, worth, end }),
        Ok(Piece::Space(_)) => Err(Refusal::NotOneToken),
        _ => Err(Refusal::NotOneToken),
    }
}

// The line that begins at a place: first whether it is hexadecimal, then whether it is a token.
pub fn entry_at(edition: Edition, stored: &[u8], at: usize) -> Result<Entry, Refusal>
    requires { at < length stored.now }
    ensures { IsEntry (meant edition) stored.now at result }
{
    let Some(end) = line_at(stored, at) else {
        return Err(Refusal::NotHexadecimal);
    };
    token_on(edition, stored, at, end)
}
