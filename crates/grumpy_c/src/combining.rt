// Two reports of a shift for C, told together. They are words from anywhere, so whatever stands in them they are
// read as something that the service answers.
ghost use Rattle.std.specs.Prelude.{◌≡◌, ◌≤◌, length};
ghost use Rattle.grumpy_c.specs.Combining.{capped, ending_in, counts_in, finished_in, CombinedC};
ghost use Rattle.grumpy_c.specs.Shifts.{FINISH};

use crate::shifts::{FINISH, ending_number, tell_finished};
use crate::{SHORT_MEMORY, words};
use numbers::Refusal;
use shift::{Ending, Finished};
use tally::sums::Sums;

// A count of 32 bits; a larger one is more than a shift can come to, as is what it is read as.
fn cap(w: u64) -> u32
    ensures { result ≡ capped w }
{
    words::count(w, u32::MAX)
}

// What a number tells: of those that a report has, 0 and 42 stand for themselves, and any other is 46 or none at all.
#[tactic(auto, unfolding(crate::specs::Combining::ending_in))]
fn read_ending(number: u64) -> Ending
    ensures { result ≡ ending_in number }
{
    match number {
        0 => Ok(false),
        42 => Err(Refusal::NoEdition),
        _ => Ok(true),
    }
}

// A report does not have how many were paid, and nobody asks for it here.
fn read_counts(words: &[u64]) -> Sums
    requires { FINISH ≤ length words.now }
    ensures { result ≡ counts_in words.now }
{
    Sums {
        lines: cap(words[1]),
        bad: cap(words[2]),
        stops: words::counts(words, 3, u32::MAX),
        paid: 0,
        sum: words[12].cast_signed(),
        least: words[13].cast_signed(),
        largest: words[14].cast_signed(),
    }
}

fn read_finished(words: &[u64]) -> Finished
    requires { FINISH ≤ length words.now }
    ensures { result ≡ finished_in words.now }
{
    let told = read_ending(words[0]);
    let sums = read_counts(words);
    Finished { told, sums }
}

#[unsafe(no_mangle)]
pub extern "C" fn grumpy_shift_combine(first: &[u64], second: &[u64], report: &mut [u64]) -> u32
    ensures { CombinedC first.now second.now report.old
        report.new result }
{
    if first.len() < FINISH || second.len() < FINISH || report.len() < FINISH {
        return SHORT_MEMORY;
    }
    let one = read_finished(first);
    let other = read_finished(second);
    let combined = shift::combine(one, other);
    let number = ending_number(combined.told);
    tell_finished(report, number, combined.sums);
    number
}
