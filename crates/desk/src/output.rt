// Writing, and what is said where it cannot be done.
ghost use Rattle.std.specs.Prelude.{◌≡◌, min};
ghost use Rattle.std.specs.Process.{exit_status};

use crate::input::within;
use page::Page;
use std::fmt;
use std::fmt::{Display, Formatter};
use std::io::{Cursor, Eprint, Error, Print, Write};
use std::process::ExitCode;

// Bytes as text. What is told on standard error has none that are no text; there would stand U+FFFD for them.
#[derive(Drop)]
struct Text<'a>(&'a [u8]);

impl Display for Text<'_> {
    fn fmt<W: fmt::Write>(&self, f: &mut Formatter<W>) -> fmt::Result {
        for chunk in self.0.utf8_chunks() {
            f.write_str(chunk.valid())?;
            if !chunk.invalid().is_empty() {
                f.write_str("\u{fffd}")?;
            }
        }
        Ok(())
    }
}

// Why something failed, in the system's own words: without its number, which std puts behind them.
#[derive(Drop)]
struct Reason<'a>(&'a Error);

impl Display for Reason<'_> {
    fn fmt<W: fmt::Write>(&self, f: &mut Formatter<W>) -> fmt::Result {
        let mut room = Cursor::new([0u8; 256]);
        let _ = write!(room, "{}", self.0);
        let end = room.position() as usize;
        let bytes = room.into_inner();
        let words = str::from_utf8(within(end, &bytes)).unwrap_or("");
        match words.split_once(" (os error ") {
            Some((reason, _)) => f.write_str(reason),
            None => f.write_str(words),
        }
    }
}

// What failed, and why.
fn failed(rt: &impl Eprint, what: &[u8], why: &Error) {
    let _ = rt.eprintln(format_args!("{}: {}", Text(what), Reason(why)));
}

// Puts a text out. False, and a line on standard error, where it cannot be written.
pub fn say(rt: &(impl Print + Eprint), text: &[u8]) -> bool {
    let written = rt.write_all(text);
    written
        .inspect_err(|why| failed(rt, b"slip: standard output", why))
        .is_ok()
}

// The same on standard error, where there is nothing to say that on.
pub fn tell(rt: &impl Eprint, text: &[u8]) -> bool {
    rt.eprint(Text(text)).is_ok()
}

// What failed with a file, and why.
pub fn fail(rt: &impl Eprint, word: &[u8], why: &Error) {
    let mut text = [0u8; 20000];
    let mut page = Page::on(&mut text);
    wording::mistakes::file(&mut page, word);
    failed(rt, page.text(), why);
}

// The same of a word that does not fit.
pub(crate) fn too_long(rt: &impl Eprint) {
    failed(rt, b"slip: a word", &Error::from_raw_os_error(TOO_LONG));
}

// The system's number for a name that is too long.
const TOO_LONG: i32 = 36;

// The program's end with a status: 0, 1 or 2.
pub fn end(status: u32) -> ExitCode
    ensures { exit_status result ≡ min status 2 }
{
    ExitCode::from(status.min(2) as u8)
}
