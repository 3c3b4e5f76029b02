// Reserved words.
ghost use Rattle.std.specs.Prelude.{cond, ◌&&◌, ◌≡◌, ◌+◌, ◌≤◌, length};
ghost use Rattle.std.proofs.Math.Seq.{slice};
ghost use Rattle.language.proofs.Text.Spellings.{stands};
ghost use Rattle.language.specs.Text.{word_kind};
ghost use Rattle.language.specs.Tokens.{NAME};
ghost use Rattle.tokens.specs.Editions.{meant, has_loops};
ghost use Rattle.tokens.specs.Parts.{part_of};
ghost use Rattle.tokens.specs.Shown.{text_of};
ghost use Rattle.tokens.specs.declared.edition.Edition.{Edition};

use crate::edition::Edition;
use crate::view::{Part, Text};
use language::kinds;

// The kind of a name: a word's own, or NAME. Its length and then its first byte leave two words at
// most, and with no others it is compared.
pub fn word(edition: Edition, name: &Part) -> u32
    ensures { result ≡ word_kind (meant edition) (part_of name.now) }
{
    match name.to - name.from {
        2 => of_two(edition, name.text, name.from),
        3 => of_three(edition, name.text, name.from),
        4 => of_four(name.text, name.from),
        5 => of_five(name.text, name.from),
        _ => kinds::NAME,
    }
}

// The same for a name of two bytes.
fn of_two(edition: Edition, text: &Text, p: usize) -> u32
    requires { p + 2 ≤ length (text_of text.now) }
    ensures { result ≡ word_kind (meant edition) (slice p (p + 2) (text_of text.now)) }
{
    match text.byte(p) {
        b'b' => added(edition, text, p, b"by", kinds::BY),
        b'd' => only(text, p, b"do", kinds::DO),
        b'i' => either(text, p, b"in", kinds::IN, b"if", kinds::IF),
        b't' => only(text, p, b"tt", kinds::TT),
        _ => kinds::NAME,
    }
}

// Of three.
fn of_three(edition: Edition, text: &Text, p: usize) -> u32
    requires { p + 3 ≤ length (text_of text.now) }
    ensures { result ≡ word_kind (meant edition) (slice p (p + 3) (text_of text.now)) }
{
    match text.byte(p) {
        b'd' => only(text, p, b"def", kinds::DEF),
        b'e' => only(text, p, b"end", kinds::END),
        b'f' => added(edition, text, p, b"for", kinds::FOR),
        b'i' => only(text, p, b"int", kinds::INT),
        b'l' => only(text, p, b"let", kinds::LET),
        b'n' => only(text, p, b"not", kinds::NOT),
        b'r' => only(text, p, b"ref", kinds::REF),
        _ => kinds::NAME,
    }
}

// Of four, in either edition.
fn of_four(text: &Text, p: usize) -> u32
    requires { p + 4 ≤ length (text_of text.now) }
    ensures { (e : Edition)
        → result ≡ word_kind (meant e) (slice p (p + 4) (text_of text.now)) }
{
    match text.byte(p) {
        b'b' => only(text, p, b"bool", kinds::BOOL),
        b'e' => only(text, p, b"else", kinds::ELSE),
        b't' => either(text, p, b"then", kinds::THEN, b"true", kinds::TRUE),
        b'u' => only(text, p, b"unit", kinds::UNIT),
        _ => kinds::NAME,
    }
}

// Of five.
fn of_five(text: &Text, p: usize) -> u32
    requires { p + 5 ≤ length (text_of text.now) }
    ensures { (e : Edition)
        → result ≡ word_kind (meant e) (slice p (p + 5) (text_of text.now)) }
{
    match text.byte(p) {
        b'f' => either(text, p, b"false", kinds::FALSE, b"float", kinds::FLOAT),
        b'w' => only(text, p, b"while", kinds::WHILE),
        _ => kinds::NAME,
    }
}

// A word stands beside its kind where it is looked for: a name's bytes are compared with fixed strings.

// The kind of the one word that is left, if it stands at p.
fn only(text: &Text, p: usize, word: &[u8], kind: u32) -> u32
    requires { p + length word.now ≤ length (text_of text.now) }
    ensures { result ≡ cond (stands (text_of text.now) p word.now) kind NAME }
{
    if text.stands_within(p, word) {
        return kind;
    }
    kinds::NAME
}

// The same of a word that edition 1 has not.
fn added(edition: Edition, text: &Text, p: usize, word: &[u8], kind: u32) -> u32
    requires { p + length word.now ≤ length (text_of text.now) }
    ensures { result ≡ cond (has_loops edition
        && stands (text_of text.now) p word.now) kind NAME }
{
    match edition {
        Edition::One => kinds::NAME,
        Edition::Two => only(text, p, word, kind),
    }
}

// The same where two are left.
fn either(text: &Text, p: usize, word: &[u8], kind: u32, other: &[u8], its: u32) -> u32
    requires { (p + length word.now ≤ length (text_of text.now))
        × (p + length other.now ≤ length (text_of text.now)) }
    ensures { result ≡ cond (stands (text_of text.now) p word.now) kind
        (cond (stands (text_of text.now) p other.now) its NAME) }
{
    if text.stands_within(p, word) {
        return kind;
    }
    only(text, p, other, its)
}
