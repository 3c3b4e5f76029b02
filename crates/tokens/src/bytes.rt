// Bytes of a text: the classes that tell what may begin at a place, and where a run of bytes of one class
// ends.
ghost use Rattle.std.specs.Prelude.{true, Bool, ℕ, ◌∷◌, ◌≡◌, ◌+◌, ◌≤◌, length};
ghost use Rattle.std.proofs.Math.Seq.{slice};
ghost use Rattle.language.specs.Pairs.{joined};
ghost use Rattle.language.specs.Text.{worth, is_blank, is_letter, is_digit, is_hex_digit, is_digit_of};
ghost use Rattle.language.specs.Text.{is_name_byte, is_in_line};
ghost use Rattle.language.proofs.Text.Runs.{Run};
ghost use Rattle.language.proofs.Text.Spellings.{stands};
ghost use Rattle.tokens.specs.Shown.{is_capital, told, text_of};

use crate::hexadecimal::is_capital;
use crate::view::{Text, View, len_of_line, of_line};

#[tactic(auto, unfolding(language::specs::Text::is_letter, language::specs::Text::between))]
pub fn is_letter(b: u8) -> bool
    ensures { result ≡ is_letter b }
{
    b.is_ascii_alphabetic()
}

#[tactic(auto, unfolding(language::specs::Text::is_digit, language::specs::Text::between))]
pub fn is_digit(b: u8) -> bool
    ensures { result ≡ is_digit b }
{
    b.is_ascii_digit()
}

#[tactic(auto, using(crate::proofs::NameBytes::ascii_hex))]
pub fn is_hex_digit(b: u8) -> bool
    ensures { result ≡ is_hex_digit b }
{
    b.is_ascii_hexdigit()
}

// What such a digit is worth.
#[tactic(auto, using(crate::proofs::NameBytes::hex_worths))]
pub fn worth(b: u8) -> u64
    requires { is_hex_digit b ≡ true }
    ensures { result ≡ worth b }
{
    match b {
        ..=b'9' => u64::from(b - b'0'),
        ..=b'F' => u64::from(b - b'A' + 10),
        _ => u64::from(b - b'a' + 10),
    }
}

#[tactic(auto, unfolding(language::specs::Text::is_digit_of))]
pub fn is_digit_of(base: u64, b: u8) -> bool
    ensures { result ≡ is_digit_of base b }
{
    is_hex_digit(b) && worth(b) < base
}

pub fn is_name_byte(b: u8) -> bool
    ensures { result ≡ is_name_byte b }
{
    b.is_ascii_alphanumeric() || b == b'_'
}

#[tactic(auto, unfolding(language::specs::Text::is_in_line))]
pub fn is_in_line(b: u8) -> bool
    ensures { result ≡ is_in_line b }
{
    b != b'\n'
}

// Four comparisons are compiled to one test; of a `matches!` a line feed took three more than a blank.
#[tactic(auto, unfolding(language::specs::Text::is_blank))]
pub fn is_blank(b: u8) -> bool
    ensures { result ≡ is_blank b }
{
    b == b' ' || b == b'\t' || b == b'\r' || b == b'\n'
}

// What the bytes of a run have in common. Runs are most of a text, so each class gets a loop of its own, by its type.
pub trait Class {
    ghost has: { Self → ℕ → Bool };

    fn has(&self, b: u8) -> bool
        ensures { result ≡ has self.now b };
}

#[derive(Clone, Copy)]
pub struct NameByte;

impl Class for NameByte {
    ghost has = { λ _. is_name_byte };

    fn has(&self, b: u8) -> bool {
        is_name_byte(b)
    }
}

// A digit of base 10.
#[derive(Clone, Copy)]
pub struct Digit;

impl Class for Digit {
    ghost has = { λ _. is_digit };

    fn has(&self, b: u8) -> bool {
        is_digit(b)
    }
}

// A digit of this base.
#[derive(Clone, Copy)]
pub struct DigitOf(pub u64);

impl Class for DigitOf {
    ghost has = { λ d. is_digit_of d.0 };

    fn has(&self, b: u8) -> bool {
        is_digit_of(self.0, b)
    }
}

// A digit as stored sheets have it.
#[derive(Clone, Copy)]
pub struct Capital;

impl Class for Capital {
    ghost has = { λ _. is_capital };

    fn has(&self, b: u8) -> bool {
        is_capital(b)
    }
}

// A blank, a tab, an LF or a CR.
#[derive(Clone, Copy)]
pub(crate) struct Blank;

impl Class for Blank {
    ghost has = { λ _. is_blank };

    fn has(&self, b: u8) -> bool {
        is_blank(b)
    }
}

// Not the LF that ends a line.
#[derive(Clone, Copy)]
pub struct InLine;

impl Class for InLine {
    ghost has = { λ _. is_in_line };

    fn has(&self, b: u8) -> bool {
        is_in_line(b)
    }
}

// Where the run of bytes of a class from a place of a sheet on ends: with the sheet, or at a byte that is not among
// them. Sheets are gone over as they lie in memory, so for a run it is asked once, and not at each byte, which view of
// them the text is.
fn run_of_sheet<C: Class>(sheet: &[u8], at: usize, class: &C) -> usize
    requires { at ≤ length sheet.now }
    ensures { Run (C.has class.now) sheet.now at result }
{
    for i in at..sheet.len() {
        if !class.has(sheet[i]) {
            return i;
        }
    }
    sheet.len()
}

// The same of the LF and the sheet behind it.
fn run_of_rest<C: Class>(sheet: &[u8], at: usize, class: &C) -> usize
    requires { at ≤ length (10 ∷ sheet.now) }
    ensures { Run (C.has class.now) (10 ∷ sheet.now) at result }
{
    if at == 0 && !class.has(b'\n') {
        return 0;
    }
    1 + run_of_sheet(sheet, at.saturating_sub(1), class)
}

// The same of two sheets.
fn run_of_both<C: Class>(first: &[u8], second: &[u8], at: usize, class: &C) -> usize
    requires { at ≤ length (joined first.now second.now) }
    ensures { Run (C.has class.now) (joined first.now second.now) at result }
{
    let size = first.len();
    if at < size {
        let end = run_of_sheet(first, at, class);
        if end < size {
            return end;
        }
    }
    size + run_of_rest(second, at.saturating_sub(size), class)
}

// The same of a line of digits.
fn run_of_line<C: Class>(sheet: &[u8], from: usize, to: usize, at: usize, class: &C) -> usize
    requires { at ≤ length (told (slice from to sheet.now)) }
    ensures { Run (C.has class.now) (told (slice from to sheet.now)) at result }
{
    let size = len_of_line(sheet, from, to);
    for n in at..size {
        if !class.has(of_line(sheet, from, to, n)) {
            return n;
        }
    }
    size
}

// These take any place up to the text's end, where none has a byte: so no Place, whose byte is there.
impl<'a> Text<'a> {
    // Where the run of bytes of a class from a place on ends: with the text, or at a byte that is not among them.
    pub fn run_end<C: Class>(&self, at: usize, class: &C) -> usize
        requires { at ≤ length (text_of self.now) }
        ensures { Run (C.has class.now) (text_of self.now) at result }
    {
        match self.view {
            View::Plain => run_of_sheet(self.first, at, class),
            View::Joined => run_of_both(self.first, self.second, at, class),
            View::Line { from, to } => run_of_line(self.first, from, to, at, class),
        }
    }

    // Do these bytes stand at a place?
    pub fn stands_at(&self, at: usize, bytes: &[u8]) -> bool
        requires { at ≤ length (text_of self.now) }
        ensures { result ≡ stands (text_of self.now) at bytes.now }
    {
        for i in 0..bytes.len() {
            if self.ahead(at, i) != bytes[i] {
                return false;
            }
        }
        true
    }

    // The same where the text has as many bytes from there on, so that none is asked whether it is one of the text's.
    pub fn stands_within(&self, at: usize, bytes: &[u8]) -> bool
        requires { at + length bytes.now ≤ length (text_of self.now) }
        ensures { result ≡ stands (text_of self.now) at bytes.now }
    {
        for i in 0..bytes.len() {
            if self.byte(at + i) != bytes[i] {
                return false;
            }
        }
        true
    }
}
