// Marks.
ghost use Rattle.std.specs.Prelude.{[], ◌∷◌, ◌≡◌, ◌+◌, ◌<◌, length};
ghost use Rattle.language.proofs.Text.Places.{Begins};
ghost use Rattle.language.proofs.Text.Places.Sort.{others};
ghost use Rattle.language.specs.Text.{byte};
ghost use Rattle.language.specs.Tokens.{EDITION_1, EDITION_2, marks, spelled};
ghost use Rattle.tokens.specs.Editions.{meant};
ghost use Rattle.tokens.specs.Found.{Gives, IsMark, POINT};
ghost use Rattle.tokens.specs.Shown.{text_of};

use crate::edition::Edition;
use crate::view::Place;
use language::kinds;

// A mark's kind, and the number of its bytes.
#[derive(Clone, Copy)]
pub struct Mark {
    pub kind: u32,
    pub size: usize,
}

// That no other form begins there is asked by the language's own words in each clause; it is known at one place in the
// code alone, so a type for it would be built once and taken apart at once.

// The mark at a place where no blank, name, number or comment begins: of those that stand there the longest. Only with
// a point begin marks that edition 1 has not.
pub fn mark_at(edition: Edition, place: &Place) -> Option<Mark>
    requires { Begins (text_of place.now.text.now) place.now.at others }
    ensures { IsMark (meant edition) (text_of place.now.text.now) place.now.at result }
{
    if place.here == b'.' {
        return pointed(edition, place);
    }
    plain(place)
}

// With a point begins no mark of edition 1.
fn pointed(edition: Edition, place: &Place) -> Option<Mark>
    requires { Begins (text_of place.now.text.now) place.now.at others × (place.now.here ≡ POINT) }
    ensures { IsMark (meant edition) (text_of place.now.text.now) place.now.at result }
{
    match edition {
        Edition::One => None,
        Edition::Two => points(place),
    }
}

// Edition 2 has two, of two points and of three bytes.
fn points(place: &Place) -> Option<Mark>
    requires { Begins (text_of place.now.text.now) place.now.at others × (place.now.here ≡ POINT) }
    ensures { IsMark EDITION_2 (text_of place.now.text.now) place.now.at result }
{
    if place.text.stands_at(place.at, b"..=") {
        return Some(Mark {
            kind: kinds::THROUGH,
            size: 3,
        });
    }
    if place.text.stands_at(place.at, b"..") {
        return Some(Mark {
            kind: kinds::UPTO,
            size: 2,
        });
    }
    None
}

// The mark of edition 1 that begins with this byte.
fn plain(place: &Place) -> Option<Mark>
    requires { Begins (text_of place.now.text.now) place.now.at others }
    ensures { IsMark EDITION_1 (text_of place.now.text.now) place.now.at result }
{
    if let Some(kind) = doubled(place) {
        return Some(Mark { kind, size: 2 });
    }
    let kind = single(place.here)?;
    Some(Mark { kind, size: 1 })
}

// The kind of the mark of this byte and the one behind it, if they are one. That byte is read only where some mark of
// two bytes begins so.
fn doubled(place: &Place) -> Option<u32>
    ensures { Gives (spelled marks
        (place.now.here ∷ byte (text_of place.now.text.now) (place.now.at + 1) ∷ [])) result }
{
    match place.here {
        b'=' | b':' | b'&' | b'|' => double(place.here, place.text.byte(place.at + 1)),
        _ => None,
    }
}

// The kind of the mark of two bytes, if they are one.
fn double(a: u8, b: u8) -> Option<u32>
    ensures { Gives (spelled marks (a ∷ b ∷ [])) result }
{
    match a {
        b'=' => (b == b'=').then_some(kinds::EQUAL),
        b':' => (b == b'=').then_some(kinds::BECOMES),
        b'&' => (b == b'&').then_some(kinds::AND),
        b'|' => (b == b'|').then_some(kinds::OR),
        _ => None,
    }
}

// The kind of the mark of one byte, if it is one.
#[tactic(auto, unfolding(language::specs::Tokens::spelled, language::specs::Tokens::same))]
fn single(a: u8) -> Option<u32>
    ensures { Gives (spelled marks (a ∷ [])) result }
{
    match a {
        b'+' => Some(kinds::PLUS),
        b'-' => Some(kinds::MINUS),
        b'*' => Some(kinds::STAR),
        b'/' => Some(kinds::SLASH),
        b'<' => Some(kinds::LESS),
        b'=' => Some(kinds::IS),
        b'!' => Some(kinds::BANG),
        b';' => Some(kinds::SEMI),
        b',' => Some(kinds::COMMA),
        b':' => Some(kinds::COLON),
        b'(' => Some(kinds::LPAR),
        b')' => Some(kinds::RPAR),
        b'{' => Some(kinds::LBRACE),
        b'}' => Some(kinds::RBRACE),
        _ => None,
    }
}
