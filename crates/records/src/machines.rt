// The report for machines: a name and a value on each line.
ghost use Rattle.numbers.specs.Meanings.{stop_meant};
ghost use Rattle.page.specs.Text.{Writes};
ghost use Rattle.tally.specs.Stands.{report_in};
ghost use Rattle.wording.specs.Fields.{number_line, signed_line};
ghost use Rattle.records.specs.Told.{report_lines};
ghost use Rattle.records.specs.Machines.{outcome_lines, stop_lines, count_lines, amount_lines};
ghost use Rattle.records.specs.Machines.{shift_lines, together_lines, combined_lines};

use crate::told::{ended, meaning, sheet, well};
use numbers::Stop;
use page::Page;
use tally::sums::{Sums, stopped};
use wording::causes::Cause;
use wording::ends::End;
use wording::fields::field;
use wording::limits::Limits;
use wording::places::Source;
use wording::types;

// The whole report, with the status that the program ends with.
pub fn report(page: &mut Page, status: u32, source: Source, limits: Limits, end: End)
    ensures { Writes (report_lines status source.entry.file.now source.entry.sheet.now
        source.entry.places limits end) page.old page.new }
{
    field(page, b"status", status as u64);
    sheet(page, source.file);
    ended(page, source, limits, end);
}

// A name and a number that may be below 0.
fn amount(page: &mut Page, name: &[u8], n: i64)
    ensures { Writes (signed_line name.now n) page.old page.new }
{
    page.put(name);
    page.put(b" ");
    types::signed(page, n);
    page.put(b"\n");
}

// How many lines came to a stop; those that came to none are told too.
fn stop(page: &mut Page, name: &[u8], sums: Sums, why: Stop)
    ensures { Writes (number_line name.now ((report_in sums).stops (stop_meant why))) page.old page.new }
{
    field(page, name, stopped(sums, why) as u64);
}

// How many lines came to each stop.
fn stops(page: &mut Page, sums: Sums)
    ensures { Writes (stop_lines sums.stops) page.old page.new }
{
    stop(page, b"stopped-50", sums, Stop::NoUnit);
    stop(page, b"stopped-51", sums, Stop::TooDeep);
    stop(page, b"stopped-52", sums, Stop::OutOfRange);
    stop(page, b"stopped-53", sums, Stop::ZeroDivisor);
    stop(page, b"stopped-54", sums, Stop::CellFreed);
    stop(page, b"stopped-55", sums, Stop::CellsFull);
    stop(page, b"stopped-56", sums, Stop::NotAByte);
    stop(page, b"stopped-57", sums, Stop::OutputFull);
    stop(page, b"stopped-58", sums, Stop::ZeroStep);
}

fn counts(page: &mut Page, sums: Sums)
    ensures { Writes (count_lines sums) page.old page.new }
{
    field(page, b"lines", sums.lines as u64);
    field(page, b"bad", sums.bad as u64);
    stops(page, sums);
    field(page, b"paid", sums.paid as u64);
}

fn amounts(page: &mut Page, sums: Sums)
    ensures { Writes (amount_lines sums) page.old page.new }
{
    amount(page, b"sum", sums.sum);
    amount(page, b"least", sums.least);
    amount(page, b"largest", sums.largest);
}

// Whether all is well: `over` where there was a line too many.
#[tactic(auto, unfolding(crate::specs::Machines::outcome_lines))]
fn outcome(page: &mut Page, over: bool)
    ensures { Writes (outcome_lines over) page.old page.new }
{
    if over {
        meaning(page, Cause::ManyLines);
    } else {
        well(page);
    }
}

// The whole report of a shift.
pub fn shift(page: &mut Page, status: u32, file: &[u8], allowance: u64, over: bool, sums: Sums)
    ensures { Writes (shift_lines status file.now allowance over sums) page.old page.new }
{
    field(page, b"status", status as u64);
    sheet(page, file);
    outcome(page, over);
    field(page, b"allowance", allowance);
    counts(page, sums);
    amounts(page, sums);
}

// Whether all is well with parts together.
#[tactic(auto, unfolding(crate::specs::Machines::together_lines))]
fn together(page: &mut Page, over: bool)
    ensures { Writes (together_lines over) page.old page.new }
{
    if over {
        page.put(b"number 46\nmeaning more than 65536 lines together, and so no sums\n");
    } else {
        well(page);
    }
}

// The report of parts of a shift together, which has no sheet and no allowance of its own. It can be read as those of
// the parts can.
pub fn combined(page: &mut Page, status: u32, over: bool, sums: Sums)
    ensures { Writes (combined_lines status over sums) page.old page.new }
{
    field(page, b"status", status as u64);
    together(page, over);
    counts(page, sums);
    amounts(page, sums);
}
