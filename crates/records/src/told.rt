// What machines are told of a sheet: a name and a value on each line.
ghost use Rattle.page.specs.Text.{Writes};
ghost use Rattle.records.specs.Told.{sheet_line, well_lines, meant_line, meaning_lines, place_lines, cause_lines};
ghost use Rattle.records.specs.Told.{placed_lines, bound_lines, ran_lines, end_lines};

use page::{Page, spot};
use wording::causes::Cause;
use wording::ends::End;
use wording::fields::field;
use wording::limits::Limits;
use wording::places::{Places, Source};
use wording::{causes, fields, words};

pub fn sheet(page: &mut Page, file: &[u8])
    ensures { Writes (sheet_line file.now) page.old page.new }
{
    page.put(b"sheet ");
    fields::name(page, file);
    page.put(b"\n");
}

#[tactic(auto, unfolding(crate::specs::Told::well_lines))]
pub fn well(page: &mut Page)
    ensures { Writes well_lines page.old page.new }
{
    page.put(b"number 0\nmeaning all is well\n");
}

// The number, where there is one, and what is meant.
pub fn meaning(page: &mut Page, why: Cause)
    ensures { Writes (meaning_lines why) page.old page.new }
{
    let number = causes::number(why);
    if number != 0 {
        field(page, b"number", number as u64);
    }
    meant(page, why);
}

fn meant(page: &mut Page, why: Cause)
    ensures { Writes (meant_line why) page.old page.new }
{
    page.put(b"meaning ");
    words::words(page, why);
    page.put(b"\n");
}

// Where a place lies: its byte counted from 0, its line and column from 1.
fn there(page: &mut Page, sheet: &[u8], place: usize)
    ensures { Writes (place_lines sheet.now place) page.old page.new }
{
    let spot = spot(sheet, place);
    field(page, b"place", place as u64);
    field(page, b"line", spot.line as u64);
    field(page, b"column", spot.column as u64);
}

// A place of a stored sheet is a line, and nothing more.
#[tactic(auto, unfolding(crate::specs::Told::placed_lines))]
fn placed(page: &mut Page, source: Source, place: usize)
    ensures { Writes (placed_lines source.entry.sheet.now source.entry.places place) page.old page.new }
{
    match source.places {
        Places::Bytes => there(page, source.sheet, place),
        Places::Lines => field(page, b"line", place as u64),
    }
}

// A cause, with its place if it has one.
fn cause(page: &mut Page, source: Source, why: Cause, place: usize)
    ensures { Writes (cause_lines source.entry.sheet.now source.entry.places why place) page.old page.new }
{
    meaning(page, why);
    if causes::is_placed(why) {
        placed(page, source, place);
    }
}

// The count of a sheet's profile, where it is known.
#[tactic(auto, unfolding(crate::specs::Told::bound_lines))]
fn bound(page: &mut Page, most: Option<u32>)
    ensures { Writes (bound_lines most) page.old page.new }
{
    if let Some(count) = most {
        field(page, b"count", count as u64);
    }
}

fn ran(page: &mut Page, units: u32, limits: Limits, printed: usize)
    ensures { Writes (ran_lines units limits printed) page.old page.new }
{
    field(page, b"units", units as u64);
    field(page, b"allowance", limits.allowance);
    bound(page, limits.most);
    field(page, b"printed", printed as u64);
}

// What came of the sheet.
pub fn ended(page: &mut Page, source: Source, limits: Limits, end: End)
    ensures { Writes (end_lines source.entry.sheet.now source.entry.places limits end) page.old page.new }
{
    match end {
        End::Passed(type_number) => {
            well(page);
            fields::type_line(page, type_number);
        }
        End::Counted(type_number, count) => {
            well(page);
            fields::type_line(page, type_number);
            field(page, b"count", count as u64);
        }
        End::Value {
            type_number,
            value,
            units,
            printed,
        } => {
            well(page);
            fields::type_line(page, type_number);
            fields::value_lines(page, value);
            ran(page, units, limits, printed);
        }
        End::Refused(why, place) => cause(page, source, why, place),
        End::Stopped {
            why,
            place,
            type_number,
            units,
            printed,
        } => {
            cause(page, source, why, place);
            fields::type_line(page, type_number);
            ran(page, units, limits, printed);
        }
    }
}
