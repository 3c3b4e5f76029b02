// The shift report for C: the three services of a shift, whose state is words that the caller keeps. Where the state
// or the report is too short, nothing is changed.
ghost use Rattle.std.specs.Prelude.{◌∷◌, [], ◌≡◌, ◌≤◌, length};
ghost use Rattle.language.specs.Shift.{shift_number};
ghost use Rattle.shift.specs.Meanings.{why_meant, admission_meant, over_told, keeps_all};
ghost use Rattle.numbers.specs.Meanings.{refusal_meant};
ghost use Rattle.pairs.specs.Spots.{meant};
ghost use Rattle.tally.specs.Stands.{report_in};
ghost use Rattle.grumpy_c.specs.Words.{with_front};
ghost use Rattle.grumpy_c.specs.States.{STATE};
ghost use Rattle.grumpy_c.specs.Shifts.{BEGIN, FEED, FINISH, told_number, admission_number, fed_number};
ghost use Rattle.grumpy_c.specs.Shifts.{ending_number, report_words, Left, refuses, book_place, BeganC, FedC};
ghost use Rattle.grumpy_c.specs.Shifts.{FinishedC};

use crate::states::STATE;
use crate::{SHORT_MEMORY, states, words};
use numbers::Refusal;
use pairs::Spot;
use shift::{Admission, Denied, Ending, State, Why};
use tally::sums::Sums;

// Words of the three reports.
const BEGIN: usize = 2;

const FEED: usize = 1;

pub const FINISH: usize = 15;

// Numbers that no sheet is refused with.
const MANY_LINES: u32 = 46;

const NO_BOOK: u32 = 47;

fn number_of(why: Why) -> u32
    ensures { result ≡ shift_number (why_meant why) }
{
    match why {
        Why::Sheet(refusal) => numbers::of_refusal(refusal),
        Why::NoBook => NO_BOOK,
        Why::ManyLines => MANY_LINES,
    }
}

fn over_number(over: bool) -> u32
    ensures { result ≡ told_number (over_told over) }
{
    if over { MANY_LINES } else { 0 }
}

// After a refusal for lent memory all is left as it was.
fn keeps_all(told: Admission) -> bool
    ensures { result ≡ keeps_all (admission_meant told).told }
{
    matches!(
        told,
        Err(Denied {
            why: Why::Sheet(Refusal::ShortMemory),
            ..
        })
    )
}

// The state after a refusal that leaves it, or a new one.
fn leave(words: &mut [u64], state: State, kept: bool)
    requires { STATE ≤ length words.old }
    ensures { Left words.old state words.new kept }
{
    if kept {
        return;
    }
    states::write_state(words, state);
}

// The place in a book of so many bytes.
#[tactic(auto, unfolding(crate::specs::Shifts::book_place))]
fn book_place(long: usize, spot: Spot) -> usize
    ensures { result ≡ book_place long (meant spot) }
{
    if spot.sheet == 2 { long } else { spot.at }
}

fn tell_begun(report: &mut [u64], long: usize, told: Admission) -> u32
    requires { BEGIN ≤ length report.old }
    ensures { (result ≡ admission_number told) × (report.new ≡
        with_front report.old (result ∷ book_place long (admission_meant told).place ∷ [])) }
{
    match told {
        Ok(()) => {
            words::put(report, &[0, 0]);
            0
        }
        Err(denied) => {
            let number = number_of(denied.why);
            let place = book_place(long, denied.spot);
            words::put(report, &[number as u64, place as u64]);
            number
        }
    }
}

#[unsafe(no_mangle)]
pub extern "C" fn grumpy_shift_begin(
    edition: u32,
    book: &[u8],
    table: &mut [u32],
    work: &mut [u32],
    allowance: u64,
    state: &mut [u64],
    report: &mut [u64],
) -> u32
    ensures { BeganC edition book.now table.old work.old allowance
        state.old report.old table.new work.new state.new
        report.new result }
{
    if state.len() < STATE || report.len() < BEGIN {
        return SHORT_MEMORY;
    }
    let answer = shift::begin(edition, book, table, work, allowance);
    let told = answer.told;
    leave(state, answer.state, keeps_all(told));
    tell_begun(report, book.len(), told)
}

fn fed_number(told: Admission, over: bool) -> u32
    ensures { result ≡ fed_number told over }
{
    match told {
        Ok(()) => over_number(over),
        Err(denied) => number_of(denied.why),
    }
}

#[unsafe(no_mangle)]
pub extern "C" fn grumpy_shift_feed(
    edition: u32,
    book: &[u8],
    piece: &[u8],
    table: &mut [u32],
    work: &mut [u32],
    out: &mut [u8],
    state: &mut [u64],
    report: &mut [u64],
) -> u32
    ensures { FedC edition book.now piece.now table.old work.old
        out.old state.old report.old table.new work.new
        out.new state.new report.new result }
{
    if state.len() < STATE || report.len() < FEED {
        return SHORT_MEMORY;
    }
    let before = states::read_state(state);
    let answer = shift::feed(edition, book, piece, table, work, out, before);
    leave(state, answer.state, answer.told.is_err());
    let number = fed_number(answer.told, answer.state.over);
    words::put(report, &[number as u64]);
    number
}

pub fn ending_number(told: Ending) -> u32
    ensures { result ≡ ending_number told }
{
    match told {
        Ok(over) => over_number(over),
        Err(refusal) => numbers::of_refusal(refusal),
    }
}

pub fn tell_finished(report: &mut [u64], number: u32, sums: Sums)
    requires { FINISH ≤ length report.old }
    ensures { report.new ≡
        with_front report.old (report_words number (report_in sums)) }
{
    let before = [number as u64, sums.lines as u64, sums.bad as u64];
    let behind = [
        sums.sum.cast_unsigned(),
        sums.least.cast_unsigned(),
        sums.largest.cast_unsigned(),
    ];
    words::put_around(report, &before, sums.stops, &behind);
}

#[unsafe(no_mangle)]
pub extern "C" fn grumpy_shift_finish(edition: u32, state: &[u64], report: &mut [u64]) -> u32
    ensures { FinishedC edition state.now report.old report.new result }
{
    if state.len() < STATE || report.len() < FINISH {
        return SHORT_MEMORY;
    }
    let finished = shift::finish(edition, states::read_state(state));
    let number = ending_number(finished.told);
    tell_finished(report, number, finished.sums);
    number
}
