// What becomes of a source: split into the tokens of the edition that is named, read and typed, it is a
// program that the table holds, or it is refused. All services of the box begin with this, for one sheet,
// for two, and for a stored one.
#![tactic(auto)]

ghost use Rattle.std.specs.Prelude.{◌≡◌, ◌≤◌, length};
ghost use Rattle.language.specs.Answers.{from_text};
ghost use Rattle.language.specs.Edition.{text_in, stored_in};
ghost use Rattle.language.specs.Sizes.{TOKENS, TABLE};
ghost use Rattle.language.specs.Stored.{from_stored};
ghost use Rattle.checker.specs.Checked.{Checkable};
ghost use Rattle.reader.specs.Findings.{Standing};
ghost use Rattle.tokens.specs.Editions.{meant};
ghost use Rattle.tokens.specs.Shown.{text_of};
ghost use Rattle.sheets.specs.Sheets.{byte_of, Typed, Read, told_at, line_of, Near, Examined};
ghost use Rattle.sheets.specs.Sources.{origin_of, place_of};

use layout::Held;
use numbers::{Located, Refusal};
use rules::Fault;
use stored::Denied;
use tokens::answer::Unsplit;
use tokens::edition::{Edition, named};
use tokens::view::Text;

pub type Refused<P> = Located<Refusal, P>;

// A program, as the table holds it, and its type's number.
#[derive(Clone, Copy)]
pub struct Passed {
    pub program: Held,
    pub type_number: u32,
}

// What becomes of tokens, or of a source: a program, or why it is none. That is told at the ordinal of a token; of a
// source at a byte or a line.
pub type Verdict = Result<Passed, Refused<usize>>;

// What a source is: the text that a view shows of two sheets, or a stored sheet.
#[derive(Clone, Copy)]
pub enum Source<'a> {
    Text(Text<'a>),
    Lines(&'a [u8]),
}

// A refusal that has no place is told at 0.
pub fn nowhere(why: Refusal) -> Refused<usize>
    ensures { result ≡ record { why = why; place = 0 } }
{
    Refused { why, place: 0 }
}

// The byte of the token with this ordinal; past the last token, the end of the source.
pub fn place(table: &[u32], count: usize, end: usize, at: usize) -> usize
    requires { (TABLE ≤ length table.now) × (count ≤ TOKENS) }
    ensures { result ≡ byte_of table.now count end at }
{
    if at < count {
        return layout::token::place(table, at) as usize;
    }
    end
}

// Why a reading has no type.
fn faulty(fault: Fault) -> Refused<usize>
    ensures { result ≡ record { why = Refusal.Types fault.why; place = fault.place } }
{
    Refused {
        why: Refusal::Types(fault.why),
        place: fault.place as usize,
    }
}

// The type of the program that the table holds.
fn typed(table: &mut [u32], program: Held) -> Verdict
    requires { Checkable table.old program }
    ensures { Typed table.old table.new program result }
{
    match checker::type_of(table, program) {
        Ok(type_number) => Ok(Passed {
            program,
            type_number,
        }),
        Err(fault) => {
            let refused = faulty(fault);
            Err(refused)
        }
    }
}

// The reading of the tokens that the table stands for, and its type.
fn read(table: &mut [u32], count: usize) -> Verdict
    requires { Standing table.old count }
    ensures { Read table.old table.new count result }
{
    match reader::read(table, count) {
        Ok(program) => typed(table, program),
        Err(failed) => Err(Refused {
            why: Refusal::NoReading,
            place: failed.at,
        }),
    }
}

// What becomes of a source that ends at this byte, once its tokens are read.
fn placed(table: &[u32], count: usize, end: usize, verdict: Verdict) -> Verdict
    requires { (TABLE ≤ length table.now) × (count ≤ TOKENS) }
    ensures { result ≡ told_at (byte_of table.now count end) verdict }
{
    verdict.map_err(|r| Refused {
        why: r.why,
        place: place(table, count, end, r.place),
    })
}

// What becomes of a text in an edition.
fn examine_in(edition: Edition, text: &Text, table: &mut [u32]) -> Verdict
    requires { TABLE ≤ length table.old }
    ensures { Examined (from_text (meant edition) (text_of text.now)) table.old table.new result }
{
    match tokens::split(edition, text, table) {
        Ok(count) => {
            let verdict = read(table, count);
            let end = text.len();
            placed(table, count, end, verdict)
        }
        Err(Unsplit::Stopped(flaw, place)) => Err(Refused {
            why: Refusal::Text(flaw),
            place,
        }),
        Err(Unsplit::TooLong) => Err(nowhere(Refusal::LongSource)),
    }
}

// In the edition that a number names; where it names none, that is told before all else.
pub fn examine(edition: u32, text: &Text, table: &mut [u32]) -> Verdict
    requires { TABLE ≤ length table.old }
    ensures { Examined (text_in edition (text_of text.now)) table.old table.new result }
{
    match named(edition) {
        Some(known) => examine_in(known, text, table),
        None => Err(nowhere(Refusal::NoEdition)),
    }
}

// What becomes of a stored sheet, once its tokens are read. The first line is the count, so the line of a token is
// two behind its ordinal, and the end is told at the line behind the last.
fn lined(verdict: Verdict) -> Verdict
    requires { Near verdict }
    ensures { result ≡ told_at line_of verdict }
{
    verdict.map_err(|r| Refused {
        why: r.why,
        place: r.place + 2,
    })
}

// What becomes of a stored sheet in an edition.
fn examine_stored_in(edition: Edition, input: &[u8], table: &mut [u32]) -> Verdict
    requires { TABLE ≤ length table.old }
    ensures { Examined (from_stored (meant edition) input.now) table.old table.new result }
{
    match stored::read(edition, input, table) {
        Ok(count) => {
            let verdict = read(table, count);
            lined(verdict)
        }
        Err(Denied { why, line }) => Err(Refused { why, place: line }),
    }
}

// In the edition that a number names. (`examine` does the same of a text, and the contracts name two origins.)
pub fn examine_stored(edition: u32, input: &[u8], table: &mut [u32]) -> Verdict
    requires { TABLE ≤ length table.old }
    ensures { Examined (stored_in edition input.now) table.old table.new result }
{
    match named(edition) {
        Some(known) => examine_stored_in(known, input, table),
        None => Err(nowhere(Refusal::NoEdition)),
    }
}

// What becomes of either kind of source.
pub fn examine_source(edition: u32, source: &Source, table: &mut [u32]) -> Verdict
    requires { TABLE ≤ length table.old }
    ensures { Examined (origin_of source.now edition) table.old table.new result }
{
    match source {
        Source::Text(text) => examine(edition, text, table),
        Source::Lines(stored) => examine_stored(edition, stored, table),
    }
}

// Where a source tells of the token with this ordinal: its byte or its line.
pub fn place_in(source: &Source, table: &[u32], count: usize, at: u32) -> usize
    requires { (TABLE ≤ length table.now) × (count ≤ TOKENS) }
    ensures { result ≡ place_of source.now table.now count at }
{
    let ordinal = at as usize;
    match source {
        Source::Text(text) => place(table, count, text.len(), ordinal),
        Source::Lines(_) => ordinal + 2,
    }
}
