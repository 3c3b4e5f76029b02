// What a text is read from: one sheet, two that are read as one, or a line of hexadecimal. Every other
// function reads its text through these, so how it lies in memory changes nothing else: two sheets need not be
// put together, nor the bytes of a line written out.
ghost use Rattle.std.specs.Prelude.{◌^◌, ◌<◌, ◌∷◌, ◌≡◌, ◌+◌, ◌-◌, ◌/◌, ◌≤◌, ltb, length};
ghost use Rattle.std.proofs.Math.Seq.{slice};
ghost use Rattle.language.specs.Pairs.{joined};
ghost use Rattle.language.specs.Text.{byte};
ghost use Rattle.tokens.specs.Shown.{told, text_of};

use crate::hexadecimal::two;

#[derive(Clone, Copy)]
pub enum View {
    // The first sheet alone.
    Plain,
    // The first, one LF, then the second.
    Joined,
    // The bytes that the digits of the first tell, from one place up to another.
    Line { from: usize, to: usize },
}

// A text: the bytes that a view shows of two sheets, which stay where they are.
#[derive(Clone, Copy)]
pub struct Text<'a> {
    pub first: &'a [u8],
    pub second: &'a [u8],
    pub view: View,
}

// A place of a text, before its end, and the byte there.
#[derive(Clone, Copy)]
pub struct Place<'a> {
    pub text: &'a Text<'a>,
    pub at: usize,
    pub here: u8,
    ghost inside: { at < length (text_of text.now) },
    ghost is: { here ≡ byte (text_of text.now) at },
    ghost near: { length (text_of text.now) < 2 ^ 64 },
}

// A part of a text: the bytes from one place up to another.
#[derive(Clone, Copy)]
pub struct Part<'a> {
    pub text: &'a Text<'a>,
    pub from: usize,
    pub to: usize,
    ghost order: { from ≤ to },
    ghost inside: { to ≤ length (text_of text.now) },
}

// How many bytes a line of digits tells.
#[tactic(auto, using(crate::proofs::Views::line_length))]
pub(crate) fn len_of_line(sheet: &[u8], from: usize, to: usize) -> usize
    ensures { result ≡ length (told (slice from to sheet.now)) }
{
    to.min(sheet.len()).saturating_sub(from) / 2
}

// Have two sheets, with the LF between them, more bytes than this? Their lengths are compared and never added: what
// a caller in C tells for one may be any number, and no sum of two may wrap to a small one.
fn longer_both(first: &[u8], second: &[u8], most: usize) -> bool
    ensures { result ≡ ltb most (length (joined first.now second.now)) }
{
    let size = first.len();
    most < size || most - size <= second.len()
}

// The byte of one sheet at a place, 0 past the end.
fn of_sheet(sheet: &[u8], at: usize) -> u8
    ensures { result ≡ byte sheet.now at }
{
    if at < sheet.len() { sheet[at] } else { 0 }
}

// The same of the LF and the sheet behind it.
fn of_rest(sheet: &[u8], at: usize) -> u8
    ensures { result ≡ byte (10 ∷ sheet.now) at }
{
    if at == 0 {
        return b'\n';
    }
    of_sheet(sheet, at - 1)
}

// The same of two sheets.
fn of_both(first: &[u8], second: &[u8], at: usize) -> u8
    ensures { result ≡ byte (joined first.now second.now) at }
{
    let size = first.len();
    if at < size {
        return first[at];
    }
    of_rest(second, at - size)
}

// The same of a line of digits.
pub(crate) fn of_line(sheet: &[u8], from: usize, to: usize, at: usize) -> u8
    ensures { result ≡ byte (told (slice from to sheet.now)) at }
{
    if len_of_line(sheet, from, to) <= at {
        return 0;
    }
    let digit = from + at * 2;
    two(sheet[digit], sheet[digit + 1])
}

impl<'a> Text<'a> {
    // How many bytes the text has.
    pub fn len(&self) -> usize
        ensures { result ≡ length (text_of self.now) }
    {
        match self.view {
            View::Plain => self.first.len(),
            View::Joined => self.first.len() + 1 + self.second.len(),
            View::Line { from, to } => len_of_line(self.first, from, to),
        }
    }

    // Has the text more bytes than this? Who has asked may add up lengths.
    pub fn longer(&self, most: usize) -> bool
        ensures { result ≡ ltb most (length (text_of self.now)) }
    {
        match self.view {
            View::Plain => most < self.first.len(),
            View::Joined => longer_both(self.first, self.second, most),
            View::Line { from, to } => most < len_of_line(self.first, from, to),
        }
    }

    // The byte of the text at a place, 0 past its end.
    pub fn byte(&self, at: usize) -> u8
        ensures { result ≡ byte (text_of self.now) at }
    {
        match self.view {
            View::Plain => of_sheet(self.first, at),
            View::Joined => of_both(self.first, self.second, at),
            View::Line { from, to } => of_line(self.first, from, to, at),
        }
    }

    // The byte so many behind a place of the text. The sum need not be a place.
    pub fn ahead(&self, at: usize, n: usize) -> u8
        requires { at ≤ length (text_of self.now) }
        ensures { result ≡ byte (text_of self.now) (at + n) }
    {
        let left = self.len() - at;
        if left <= n {
            return 0;
        }
        self.byte(at + n)
    }
}
