// What stands at a place of a text.
ghost use Rattle.std.specs.Prelude.{false, ◌≡◌, ◌<◌, length};
ghost use Rattle.language.specs.Text.{byte};
ghost use Rattle.language.specs.Text.{is_blank};
ghost use Rattle.tokens.specs.Editions.{meant};
ghost use Rattle.tokens.specs.Found.{IsPiece, STROKE};
ghost use Rattle.tokens.specs.Shown.{text_of};
ghost use Rattle.tokens.specs.declared.edition.Edition.{Edition};

use crate::bytes::{InLine, NameByte, is_blank, is_digit, is_letter};
use crate::comments::comment_end;
use crate::edition::Edition;
use crate::marks::mark_at;
use crate::view::{Part, Place, Text};
use crate::words::word;
use crate::worth::number;
use language::kinds;
use numbers::Flaw;

// What may stand there: neither is a refusal, and both have an end.
#[derive(Clone, Copy)]
pub enum Piece {
    // A blank or a comment, up to this place.
    Space(usize),
    // A token: its kind, its end, and what it is worth: of a number its value, of a float number its bits,
    // else 0.
    Token { kind: u32, end: usize, worth: u64 },
}

// The longest piece at a place. What begins there is settled by its first two bytes.
pub fn piece_at(edition: Edition, text: &Text, at: usize) -> Result<Piece, Flaw>
    requires { at < length (text_of text.now) }
    ensures { IsPiece (meant edition) (text_of text.now) at result }
{
    let place = Place {
        text: &*text,
        at,
        here: text.byte(at),
    };
    if is_blank(place.here) {
        return Ok(Piece::Space(at + 1));
    }
    piece_of(edition, &place)
}

// The same where no blank stands.
pub fn piece_of(edition: Edition, place: &Place) -> Result<Piece, Flaw>
    requires { is_blank place.now.here ≡ false }
    ensures { IsPiece (meant edition) (text_of place.now.text.now) place.now.at result }
{
    if is_letter(place.here) {
        let name = Part {
            text: place.text,
            from: place.at,
            to: place.text.run_end(place.at, &NameByte),
        };
        return Ok(Piece::Token {
            kind: word(edition, &name),
            end: name.to,
            worth: 0,
        });
    }
    if is_digit(place.here) {
        return number(edition, place);
    }
    if place.here == b'/' {
        return slash(place);
    }
    let Some(mark) = mark_at(edition, place) else {
        return Err(Flaw::StrangeByte);
    };
    Ok(Piece::Token {
        kind: mark.kind,
        end: place.at + mark.size,
        worth: 0,
    })
}

// The same where a `/` stands, in either edition: a comment or a mark.
fn slash(place: &Place) -> Result<Piece, Flaw>
    requires { place.now.here ≡ STROKE }
    ensures { (e : Edition) → IsPiece (meant e) (text_of place.now.text.now) place.now.at result }
{
    match place.text.byte(place.at + 1) {
        b'/' => Ok(Piece::Space(place.text.run_end(place.at + 2, &InLine))),
        b'*' => match comment_end(place.text, place.at) {
            Some(end) => Ok(Piece::Space(end)),
            None => Err(Flaw::OpenComment),
        },
        _ => Ok(Piece::Token {
            kind: kinds::SLASH,
            end: place.at + 1,
            worth: 0,
        }),
    }
}
