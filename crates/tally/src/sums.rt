// What the lines so far add up to.
ghost use Rattle.std.specs.Prelude.{◌≡◌, ◌<◌};
ghost use Rattle.std.specs.Int.Signed.{mag};
ghost use Rattle.tally.specs.Sums.{no_sums, stop_index, counted, summed, with_bad, with_stop, with_pay, Small};
ghost use Rattle.tally.specs.Sums.{added};
ghost use Rattle.numbers.specs.Meanings.{stop_meant};
ghost use Rattle.tally.specs.Stands.{report_in};

use crate::LINES;
use numbers::Stop;

// No sum of a shift lies outside of these.
const HIGH: i64 = 140737488355328;

const LOW: i64 = -140737488355329;

// Lines; bad ones; for each stop from 50 on how many, in an array, as C has words for them (`grumpy_c/specs/States`);
// how many were paid, and the sum, the least and the largest of these.
#[derive(Clone, Copy)]
pub struct Sums {
    pub lines: u32,
    pub bad: u32,
    pub stops: [u32; 9],
    pub paid: u32,
    pub sum: i64,
    pub least: i64,
    pub largest: i64,
}

// What a line comes to: one of three, as the written language has them.
#[derive(Clone, Copy)]
pub enum Outcome {
    Bad,
    Stopped(Stop),
    Paid(i64),
}

pub fn none() -> Sums
    ensures { result ≡ no_sums }
{
    Sums {
        lines: 0,
        bad: 0,
        stops: [0u32; 9],
        paid: 0,
        sum: 0,
        least: 0,
        largest: 0,
    }
}

// One more, as long as there may be one; no `min`, which would answer another number above the limit.
#[tactic(auto, unfolding(crate::specs::Sums::counted))]
fn one_more(n: u32) -> u32
    ensures { result ≡ counted n }
{
    if n < LINES { n + 1 } else { n }
}

// Where the lines of a stop are counted.
fn index(why: Stop) -> usize
    ensures { (result ≡ stop_index why) × (result < 9) }
{
    numbers::of_stop(why) as usize - 50
}

// How many lines came to this stop.
pub fn stopped(sums: Sums, why: Stop) -> u32
    ensures { result ≡ (report_in sums).stops (stop_meant why) }
{
    sums.stops[index(why)]
}

// The sum of two that are not too large; what no shift can come to is left as it is.
#[tactic(auto, using(std::proofs::lemmas::Int::ints), unfolding(crate::specs::Sums::summed))]
fn plus(a: i64, b: i64) -> i64
    requires { mag b < 2147483648 }
    ensures { result ≡ summed a b }
{
    if HIGH < a || a < LOW { a } else { a + b }
}

fn add_bad(s: Sums) -> Sums
    ensures { result ≡ with_bad s }
{
    Sums {
        lines: one_more(s.lines),
        bad: one_more(s.bad),
        ..s
    }
}

fn add_stop(s: Sums, why: Stop) -> Sums
    ensures { result ≡ with_stop s why }
{
    let mut stops = s.stops;
    let i = index(why);
    stops[i] = one_more(stops[i]);
    Sums {
        lines: one_more(s.lines),
        stops,
        ..s
    }
}

fn add_pay(s: Sums, pay: i64) -> Sums
    requires { mag pay < 2147483648 }
    ensures { result ≡ with_pay s pay }
{
    let (least, largest) = if s.paid == 0 {
        (pay, pay)
    } else {
        (s.least.min(pay), pay.max(s.largest))
    };
    Sums {
        lines: one_more(s.lines),
        paid: one_more(s.paid),
        sum: plus(s.sum, pay),
        least,
        largest,
        ..s
    }
}

// One outcome more.
pub fn add(s: Sums, o: Outcome) -> Sums
    requires { Small o }
    ensures { result ≡ added s o }
{
    match o {
        Outcome::Bad => add_bad(s),
        Outcome::Stopped(why) => add_stop(s, why),
        Outcome::Paid(pay) => add_pay(s, pay),
    }
}
