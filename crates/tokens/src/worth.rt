// Numbers: how one is written, where it ends and what it is worth.
ghost use Rattle.std.specs.Prelude.{◌<◌, ◌≤◌, true, [], ◌∷◌, ◌≡◌, length};
ghost use Rattle.language.proofs.Text.Bases as Bases;
ghost use Rattle.language.specs.Text.{byte};
ghost use Rattle.language.proofs.Text.Runs.{Run};
ghost use Rattle.language.specs.Text.{is_digit, is_digit_of};
ghost use Rattle.language.specs.Tokens.{bases, spelled};
ghost use Rattle.tokens.specs.Editions.{meant};
ghost use Rattle.tokens.specs.Found.{Gives, IsPiece, PointAt, has_point};
ghost use Rattle.tokens.specs.Shown.{text_of};

use crate::bytes::{Digit, DigitOf, is_digit_of, worth};
use crate::edition::Edition;
use crate::floats;
use crate::pieces::Piece;
use crate::view::{Place, Text};
use language::{DIGITS, LARGEST, kinds};
use numbers::Flaw;

// Where the digits of a number begin, and their base.
#[derive(Clone, Copy)]
pub struct Digits {
    from: usize,
    base: u64,
}

// The base that two bytes tell, if they tell one.
#[tactic(auto, unfolding(language::specs::Tokens::spelled, language::specs::Tokens::same))]
fn base_of(a: u8, b: u8) -> Option<u64>
    ensures { Gives (spelled bases (a ∷ b ∷ [])) result }
{
    match (a, b) {
        (b'0', b'x') => Some(16),
        (b'0', b'b') => Some(2),
        _ => None,
    }
}

// How the number that begins with the digit at a place is written. Without a digit of its own a base is
// none, and the number is the digits that stand there.
fn based_at(edition: Edition, place: &Place) -> Digits
    requires { is_digit place.now.here ≡ true }
    ensures { Bases.Digits (meant edition) (text_of place.now.text.now) place.now.at result.from result.base
        × (result.from ≡ place.now.at → result.base ≡ 10) }
{
    let text = place.text;
    let at = place.at;
    match base_of(place.here, text.ahead(at, 1)) {
        Some(base) if is_digit_of(base, text.ahead(at, 2)) => Digits { from: at + 2, base },
        _ => Digits { from: at, base: 10 },
    }
}

// The same, where only a 0 begins a base.
fn digits_at(edition: Edition, place: &Place) -> Digits
    requires { is_digit place.now.here ≡ true }
    ensures { Bases.Digits (meant edition) (text_of place.now.text.now) place.now.at result.from result.base
        × (result.from ≡ place.now.at → result.base ≡ 10) }
{
    if place.here == b'0' {
        return based_at(edition, place);
    }
    Digits {
        from: place.at,
        base: 10,
    }
}

// Where the digits of a base that go on at a place end.
fn ends(text: &Text, at: usize, base: u64) -> usize
    requires { at ≤ length (text_of text.now) }
    ensures { Run (is_digit_of base) (text_of text.now) at result }
{
    if base == 10 {
        return text.run_end(at, &Digit);
    }
    text.run_end(at, &DigitOf(base))
}

// May a point that this byte follows belong to a number? In edition 2 the points of `..` may not.
fn points(edition: Edition, b: u8) -> bool
    ensures { result ≡ (meant edition).points b }
{
    match edition {
        Edition::One => true,
        Edition::Two => b != b'.',
    }
}

// Whether the number at a place goes on with a point of its own where its digits end. Those behind a base
// take none.
fn takes_point(edition: Edition, text: &Text, at: usize, from: usize, end: usize) -> bool
    requires { end ≤ length (text_of text.now) }
    ensures { result ≡ has_point (meant edition) (text_of text.now) at from end }
{
    if from != at {
        return false;
    }
    text.byte(end) == b'.' && points(edition, text.byte(end + 1))
}

// The float number at a place, with its point where the digits there end.
fn float_number(edition: Edition, text: &Text, at: usize, point: usize) -> Result<Piece, Flaw>
    requires { PointAt (meant edition) (text_of text.now) at point }
    ensures { IsPiece (meant edition) (text_of text.now) at result }
{
    let end = ends(text, point + 1, 10);
    if DIGITS + 1 < end - at {
        return Err(Flaw::LongFloat);
    }
    let bits = floats::bits(text, at, point, end);
    Ok(Piece::Token {
        kind: kinds::FLOAT_NUMBER,
        end,
        worth: bits,
    })
}

// The number that begins with the digit at a place. No digit is read once the value is too large, and
// so no product can wrap.
pub fn number(edition: Edition, place: &Place) -> Result<Piece, Flaw>
    requires { is_digit place.now.here ≡ true }
    ensures { IsPiece (meant edition) (text_of place.now.text.now) place.now.at result }
{
    let text = place.text;
    let at = place.at;
    let Digits { from, base } = digits_at(edition, place);
    let end = ends(text, from, base);
    if takes_point(edition, text, at, from, end) {
        return float_number(edition, text, at, end);
    }
    let mut value: u64 = 0;
    for i in from..end {
        value = value * base + worth(text.byte(i));
        if LARGEST < value {
            return Err(Flaw::LargeNumber);
        }
    }
    Ok(Piece::Token {
        kind: kinds::NUMBER,
        end,
        worth: value,
    })
}
