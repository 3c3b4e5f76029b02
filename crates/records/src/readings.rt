// The report of a shift for machines, read again.
ghost use Rattle.std.specs.Prelude.{◌||◌, ◌≡◌, eqb};
ghost use Rattle.records.specs.Readings.{count_told, amount_told, nine_told, sums_told, is_told, over_told};
ghost use Rattle.records.specs.Readings.{whole, full, reading_in};

use page::lines::{feeds_before, line_start};
use page::{amount, count};
use tally::sums::Sums;
use tally::{LINES, combining};

// The largest number of the table.
const NUMBERS: u32 = 99;

// What no shift can come to: a line more than there may be, and more than there may be pence. They stand for what is
// not told, as the definitions `count_told` and `amount_told` have it, and `whole` refuses them.
const NO_COUNT: u32 = 65537;

const NO_AMOUNT: i64 = 4611686018427387904;

// The report of a shift: whether it tells of a line too many, and the sums, which are there too where it does.
#[derive(Clone, Copy)]
pub struct Reading {
    pub over: bool,
    pub sums: Sums,
}

// A count; where there is none, more than there can be, and so no report.
fn count_of(text: &[u8], name: &[u8]) -> u32
    ensures { result ≡ count_told name.now text.now }
{
    count(text, name, LINES).unwrap_or(NO_COUNT)
}

fn amount_of(text: &[u8], name: &[u8]) -> i64
    ensures { result ≡ amount_told name.now text.now }
{
    amount(text, name).unwrap_or(NO_AMOUNT)
}

fn stops_of(text: &[u8]) -> [u32; 9]
    ensures { result ≡ nine_told text.now }
{
    [
        count_of(text, b"stopped-50 "),
        count_of(text, b"stopped-51 "),
        count_of(text, b"stopped-52 "),
        count_of(text, b"stopped-53 "),
        count_of(text, b"stopped-54 "),
        count_of(text, b"stopped-55 "),
        count_of(text, b"stopped-56 "),
        count_of(text, b"stopped-57 "),
        count_of(text, b"stopped-58 "),
    ]
}

fn sums_of(text: &[u8]) -> Sums
    ensures { result ≡ sums_told text.now }
{
    Sums {
        lines: count_of(text, b"lines "),
        bad: count_of(text, b"bad "),
        stops: stops_of(text),
        paid: count_of(text, b"paid "),
        sum: amount_of(text, b"sum "),
        least: amount_of(text, b"least "),
        largest: amount_of(text, b"largest "),
    }
}

// The number that such a report tells is 0 or 46.
fn is_told(number: Option<u32>) -> bool
    ensures { result ≡ is_told number }
{
    matches!(number, Some(0 | 46))
}

fn over_told(number: Option<u32>) -> bool
    ensures { result ≡ over_told number }
{
    matches!(number, Some(46))
}

// They can be those of a shift, and as many were paid as is told.
fn is_whole(sums: Sums) -> bool
    ensures { result ≡ whole sums }
{
    combining::possible(sums) && combining::paid(sums) == sums.paid
}

// As many lines as such a report has: that of parts together tells of no sheet and no allowance.
fn is_length(lines: usize) -> bool
    ensures { result ≡ (eqb lines 18 || eqb lines 20) }
{
    matches!(lines, 18 | 20)
}

// No line is missing, none is there twice, and the last has its end: a report that was cut, or one behind another, is
// none.
fn is_full(text: &[u8]) -> bool
    ensures { result ≡ full text.now }
{
    let n = text.len();
    line_start(text, n) == n && is_length(feeds_before(text, n))
}

// A file that was read: the report of a shift, or what it tells all the same.
#[tactic(auto, unfolding(crate::specs::Readings::reading_in))]
pub fn read(text: &[u8]) -> Result<Reading, Reading>
    ensures { result ≡ reading_in text.now }
{
    let number = count(text, b"number ", NUMBERS);
    let sums = sums_of(text);
    let reading = Reading {
        over: over_told(number),
        sums,
    };
    if is_full(text) && is_told(number) && is_whole(sums) {
        Ok(reading)
    } else {
        Err(reading)
    }
}
