// Reading what the words name.
ghost use Rattle.std.specs.Prelude.{false, ◌≡◌, ◌≤◌, ◌↔◌, length, take, IfOk, IsOk, IfSome};
ghost use Rattle.std.specs.Str.{IsUtf8};
ghost use Rattle.std.specs.Io.{ReadsAtMost};
ghost use Rattle.language.specs.Sizes.{ALLOWANCE, LARGEST};
ghost use Rattle.desk.specs.Numbers.{UpTo};

use crate::arguments::{fits, word};
use crate::output;
use orders::asked::Asked;
use orders::tasks;
use page::Page;
use std::fs;
use std::io::{Eprint, Error, ErrorKind, Input, Read};
use std::rt::{Env, Files};

// The first of these bytes: so many, or all, if there are no more.
pub fn within(n: usize, bytes: &[u8]) -> &[u8]
    ensures { result.now ≡ take n bytes.now }
{
    &bytes[..n.min(bytes.len())]
}

// A file's name as a path: one that is text in UTF-8, since std knows no other.
pub fn path(name: &[u8]) -> Result<&str, Error>
    ensures same { IfOk result (λ path. path.now ≡ name.now) }
    ensures text { IsOk result ↔ IsUtf8 name.now }
{
    match str::from_utf8(name) {
        Ok(path) => Ok(path),
        Err(_) => Err(Error::new(ErrorKind::InvalidFilename, "The name is not UTF-8")),
    }
}

// Opens the file of this name for reading.
pub fn open<R: Files>(rt: &R, name: &[u8]) -> Result<R::File, Error> {
    fs::open(rt, path(name)?)
}

// Reads on behind the bytes that there are, until they are full or the input ends, and answers how many there are then.
// It goes on by what each read gives, which no range says beforehand.
fn read_on<I: Read>(input: &mut I, begun: usize, bytes: &mut [u8]) -> Result<usize, Error>
    requires { begun ≤ length bytes.old }
    ensures { ReadsAtMost result bytes.new }
{
    let mut done = begun;
    while done < bytes.len() {
        let got = input.read(&mut bytes[done..])?;
        if got == 0 {
            break;
        }
        done += got;
    }
    Ok(done)
}

// Reads until the bytes are full or the input ends, and answers those that were read; nothing where a read fails, which
// was told. No sheet is cut short unnoticed where it fails on the way.
fn read<'a, I: Read>(
    rt: &impl Eprint,
    input: &mut I,
    name: &[u8],
    bytes: &'a mut [u8],
) -> Option<&'a [u8]>
    ensures { IfSome result (λ sheet. length sheet.now ≤ length bytes.old) }
{
    let begun = match input.read(bytes) {
        Ok(got) => got,
        Err(why) => {
            output::fail(rt, name, &why);
            return None;
        }
    };
    if begun == 0 {
        return Some(&[]);
    }
    match read_on(input, begun, bytes) {
        Ok(all) => Some(&bytes[..all]),
        Err(_) => {
            output::tell(rt, b"slip: the sheet cannot be read to its end\n");
            None
        }
    }
}

// Reads the sheet that this word names; nothing where it cannot be read, which was told.
pub fn load<'a, R: Env + Files + Input + Eprint>(
    rt: &R,
    i: Option<usize>,
    bytes: &'a mut [u8],
) -> Option<&'a [u8]>
    ensures { IfSome result (λ sheet. length sheet.now ≤ length bytes.old) }
{
    let mut room = io::buffer();
    let name = word(rt, i, &mut room);
    if name == b"-".as_slice() {
        return read(rt, &mut rt.reader(), name, bytes);
    }
    match open(rt, name) {
        Ok(mut file) => read(rt, &mut file, name, bytes),
        Err(why) => {
            output::fail(rt, name, &why);
            None
        }
    }
}

// What was read of a word that has to be a number up to a limit; where it is none, that is told.
fn numbered(
    rt: &impl Eprint,
    found: Option<u32>,
    what: &[u8],
    word: &[u8],
    most: u32,
) -> Option<u32>
    ensures { result ≡ found }
{
    if found.is_none() {
        let mut text = [0u8; 20000];
        let mut page = Page::on(&mut text);
        wording::mistakes::no_number(&mut page, what, word, most);
        output::tell(rt, page.text());
    }
    found
}

// Reads a word that has to be a number up to a limit; where it is none, that was told.
pub fn number(rt: &(impl Env + Eprint), i: Option<usize>, what: &[u8], most: u32) -> Option<u32>
    ensures { UpTo most result }
{
    let mut room = io::buffer();
    let name = word(rt, i, &mut room);
    let found = page::up_to(name, most);
    numbered(rt, found, what, name, most)
}

// The largest allowance, which is the usual one.
const UNITS: u32 = language::ALLOWANCE as u32;

// The allowance that a word says, if there is one; where it is no number, that was told.
pub fn allowance(rt: &(impl Env + Eprint), i: Option<usize>) -> Option<u32>
    ensures { UpTo ALLOWANCE result }
{
    if i.is_none() {
        return Some(UNITS);
    }
    number(rt, i, b"allowance", UNITS)
}

// The edition that the words name; where the word for it is no number, that was told.
pub fn edition(rt: &(impl Env + Eprint), asked: Asked) -> Option<u32>
    ensures { UpTo LARGEST result }
{
    let mut room = io::buffer();
    let name = word(rt, asked.edition, &mut room);
    let found = asked.edition(name);
    numbered(rt, found, b"edition", name, tasks::LARGEST)
}

// Says of a word that it has no meaning, or that it is too long.
pub fn strange(rt: &(impl Env + Eprint), i: usize) {
    if !fits(rt, i) {
        output::too_long(rt);
        return;
    }
    let mut room = io::buffer();
    let mut text = [0u8; 20000];
    let mut page = Page::on(&mut text);
    wording::mistakes::strange(&mut page, word(rt, Some(i), &mut room));
    output::tell(rt, page.text());
}

// Says of the file that a word names that it is no report of a shift.
pub fn no_report(rt: &(impl Env + Eprint), i: usize) {
    let mut room = io::buffer();
    let mut text = [0u8; 20000];
    let mut page = Page::on(&mut text);
    wording::mistakes::no_report(&mut page, word(rt, Some(i), &mut room));
    output::tell(rt, page.text());
}

// Are these two words the same? Where one of them is missing they are not.
pub fn same(rt: &impl Env, first: Option<usize>, second: Option<usize>) -> bool
    ensures { second ≡ None → result ≡ false }
{
    if first.is_none() || second.is_none() {
        return false;
    }
    word(rt, first, &mut io::buffer()) == word(rt, second, &mut io::buffer())
}
