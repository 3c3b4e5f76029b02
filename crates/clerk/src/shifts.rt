// What is told of a shift, for people: a name and what it comes to on each line, one below the other.
ghost use Rattle.std.specs.Prelude.{◌<◌};
ghost use Rattle.numbers.specs.Meanings.{stop_meant};
ghost use Rattle.page.specs.Text.{Writes};
ghost use Rattle.tally.specs.Stands.{report_in};
ghost use Rattle.clerk.specs.Shifts.{pounds_words, count_line, amount_line, progress_line, stop_line};
ghost use Rattle.clerk.specs.Shifts.{stop_lines, count_lines, amount_lines, shift_text};

use numbers::Stop;
use page::Page;
use tally::sums::{Sums, stopped};
use wording::causes::Cause;
use wording::types::signed;
use wording::words;

// An amount in pounds and pence.
fn pounds(page: &mut Page, pence: i64)
    ensures { Writes (pounds_words pence) page.old page.new }
{
    if pence < 0 {
        page.put(b"-");
    }
    page.pounds(pence.unsigned_abs());
}

fn count(page: &mut Page, name: &[u8], n: u32)
    ensures { Writes (count_line name.now n) page.old page.new }
{
    page.put(name);
    page.decimal(n as u64);
    page.put(b"\n");
}

fn amount(page: &mut Page, name: &[u8], pence: i64)
    ensures { Writes (amount_line name.now pence) page.old page.new }
{
    page.put(name);
    signed(page, pence);
    page.put(b" pence, ");
    pounds(page, pence);
    page.put(b" pounds\n");
}

// A stop that came, with its words.
fn stop(page: &mut Page, sums: Sums, why: Stop)
    ensures { Writes (stop_line why ((report_in sums).stops (stop_meant why))) page.old page.new }
{
    let lines = stopped(sums, why);
    if lines != 0 {
        page.put(b"number ");
        page.decimal(numbers::of_stop(why) as u64);
        page.put(b"  ");
        page.decimal(lines as u64);
        page.put(b" ");
        words::words(page, Cause::Stopped(why));
        page.put(b"\n");
    }
}

// The stops that came, from 50 on.
fn stops(page: &mut Page, sums: Sums)
    ensures { Writes (stop_lines sums.stops) page.old page.new }
{
    stop(page, sums, Stop::NoUnit);
    stop(page, sums, Stop::TooDeep);
    stop(page, sums, Stop::OutOfRange);
    stop(page, sums, Stop::ZeroDivisor);
    stop(page, sums, Stop::CellFreed);
    stop(page, sums, Stop::CellsFull);
    stop(page, sums, Stop::NotAByte);
    stop(page, sums, Stop::OutputFull);
    stop(page, sums, Stop::ZeroStep);
}

fn counts(page: &mut Page, sums: Sums)
    ensures { Writes (count_lines sums) page.old page.new }
{
    count(page, b"lines      ", sums.lines);
    count(page, b"bad lines  ", sums.bad);
    stops(page, sums);
    count(page, b"paid       ", sums.paid);
}

fn amounts(page: &mut Page, sums: Sums)
    ensures { Writes (amount_lines sums) page.old page.new }
{
    amount(page, b"sum        ", sums.sum);
    amount(page, b"least      ", sums.least);
    amount(page, b"largest    ", sums.largest);
}

// The whole report.
pub fn report(page: &mut Page, sums: Sums)
    ensures { Writes (shift_text sums) page.old page.new }
{
    counts(page, sums);
    amounts(page, sums);
}

// That so many lines are done.
pub fn progress(page: &mut Page, lines: u32)
    ensures { Writes (progress_line lines) page.old page.new }
{
    page.put(b"slip: ");
    page.decimal(lines as u64);
    page.put(b" lines so far\n");
}
