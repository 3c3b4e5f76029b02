// The report for people.
ghost use Rattle.page.specs.Text.{Writes};
ghost use Rattle.wording.specs.Spots.{line_at, column_at};
ghost use Rattle.clerk.specs.Told.{number_words, line_words, position_words, marked_lines, meaning_line};
ghost use Rattle.clerk.specs.Told.{there_lines, on_line, placed_lines, cause_lines};
ghost use Rattle.clerk.specs.Reports.{well_line, bound_words, units_line, counted_line, report_text};

use page::{Page, spot};
use wording::causes::Cause;
use wording::ends::End;
use wording::limits::Limits;
use wording::places::{Places, Source};
use wording::{causes, fields, words};

// A number, where there is one, and what is meant.
fn meaning(page: &mut Page, why: Cause)
    ensures { Writes (meaning_line why) page.old page.new }
{
    let number = causes::number(why);
    if number != 0 {
        page.put(b"number ");
        page.decimal(number as u64);
        page.put(b": ");
    }
    words::words(page, why);
    page.put(b"\n");
}

// File, line and column of a place in the sheet.
pub fn position(page: &mut Page, source: Source, place: usize)
    ensures { Writes (position_words source.entry.file.now (line_at source.entry.sheet.now place)
        (column_at source.entry.sheet.now place)) page.old page.new }
{
    let spot = spot(source.sheet, place);
    fields::name(page, source.file);
    page.put(b":");
    page.decimal(spot.line as u64);
    page.put(b":");
    page.decimal(spot.column as u64);
}

// File and line of a place in a stored sheet.
pub fn line(page: &mut Page, file: &[u8], place: usize)
    ensures { Writes (line_words file.now place) page.old page.new }
{
    fields::name(page, file);
    page.put(b": line ");
    page.decimal(place as u64);
}

// A number, behind that.
pub fn numbered(page: &mut Page, number: u32)
    ensures { Writes (number_words number) page.old page.new }
{
    page.put(b": number ");
    page.decimal(number as u64);
    page.put(b": ");
}

// A line, and a mark behind blanks as wide as what stands before the place. A carriage return at the line's
// end is not shown.
fn marked(page: &mut Page, line: &[u8], before: &[u8], plain: bool)
    ensures { Writes (marked_lines plain line.now before.now) page.old page.new }
{
    page.shown(page::trimmed(line), plain);
    page.put(b"\n");
    page.blanks(before, plain);
    page.put(b"^\n");
}

// A cause at a place of the sheet.
fn there(page: &mut Page, source: Source, why: Cause, place: usize)
    ensures { Writes (there_lines source.entry.file.now source.entry.sheet.now why place) page.old page.new }
{
    let sheet = source.sheet;
    let spot = spot(sheet, place);
    position(page, source, place);
    numbered(page, causes::number(why));
    words::words(page, why);
    page.put(b"\n");
    marked(
        page,
        &sheet[spot.from..spot.to],
        &sheet[spot.from..spot.here],
        spot.plain,
    );
}

// A cause at a line of a stored sheet, whose digits nobody is shown.
fn on_line(page: &mut Page, file: &[u8], why: Cause, place: usize)
    ensures { Writes (on_line file.now why place) page.old page.new }
{
    line(page, file, place);
    numbered(page, causes::number(why));
    words::words(page, why);
    page.put(b"\n");
}

#[tactic(auto, unfolding(crate::specs::Told::placed_lines))]
fn placed(page: &mut Page, source: Source, why: Cause, place: usize)
    ensures { Writes (placed_lines source.entry.file.now source.entry.sheet.now
        source.entry.places why place) page.old page.new }
{
    match source.places {
        Places::Bytes => there(page, source, why, place),
        Places::Lines => on_line(page, source.file, why, place),
    }
}

// A cause, with its place if it has one.
fn cause(page: &mut Page, source: Source, why: Cause, place: usize)
    ensures { Writes (cause_lines source.entry.file.now source.entry.sheet.now
        source.entry.places why place) page.old page.new }
{
    if causes::is_placed(why) {
        placed(page, source, why, place);
    } else {
        fields::name(page, source.file);
        page.put(b": ");
        meaning(page, why);
    }
}

#[tactic(auto, unfolding(crate::specs::Reports::well_line))]
fn well(page: &mut Page)
    ensures { Writes well_line page.old page.new }
{
    page.put(b"number 0: all is well\n");
}

// How many units it can use, where that is known.
#[tactic(auto, unfolding(crate::specs::Reports::bound_words))]
fn bound(page: &mut Page, most: Option<u32>)
    ensures { Writes (bound_words most) page.old page.new }
{
    if let Some(count) = most {
        page.put(b", at most ");
        page.decimal(count as u64);
        page.put(b" by the profile");
    }
}

fn units(page: &mut Page, used: u32, limits: Limits)
    ensures { Writes (units_line used limits) page.old page.new }
{
    page.put(b"units ");
    page.decimal(used as u64);
    page.put(b" of ");
    page.decimal(limits.allowance);
    bound(page, limits.most);
    page.put(b"\n");
}

// What the profile tells of a sheet that passes it.
fn counted(page: &mut Page, count: u32)
    ensures { Writes (counted_line count) page.old page.new }
{
    page.put(b"units at most ");
    page.decimal(count as u64);
    page.put(b"\n");
}

// The whole report.
pub fn report(page: &mut Page, source: Source, limits: Limits, end: End)
    ensures { Writes (report_text source.entry.file.now source.entry.sheet.now
        source.entry.places limits end) page.old page.new }
{
    match end {
        End::Passed(type_number) => {
            well(page);
            fields::type_line(page, type_number);
        }
        End::Counted(type_number, count) => {
            well(page);
            fields::type_line(page, type_number);
            counted(page, count);
        }
        End::Value {
            type_number,
            value,
            units: used,
            printed: _,
        } => {
            well(page);
            fields::type_line(page, type_number);
            fields::value_lines(page, value);
            units(page, used, limits);
        }
        End::Refused(why, place) => cause(page, source, why, place),
        End::Stopped {
            why,
            place,
            type_number,
            units: used,
            printed: _,
        } => {
            cause(page, source, why, place);
            fields::type_line(page, type_number);
            units(page, used, limits);
        }
    }
}
