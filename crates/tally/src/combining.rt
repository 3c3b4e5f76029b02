// Reports of two parts of a shift that add up. Nothing is believed of them: they may come from anywhere, so that
// they are looked at before anything is added. How many lines were paid is worked out from the other counts, as
// whoever has a report can do.
ghost use Rattle.std.specs.Prelude.{true, cond, eqb, ◌≡◌, ◌+◌, ◌≤◌, ◌<◌};
ghost use Rattle.language.specs.Combining as Combining;
ghost use Rattle.language.specs.Combining.{all_stops, paid_lines};
ghost use Rattle.language.specs.Sizes as Sizes;
ghost use Rattle.tally.specs.Combining.{counts, nine_both, not_paid, Both};
ghost use Rattle.tally.specs.Stands.{report_in};

use crate::sums::Sums;
use crate::{LINES, paying};

fn three(a: u32, b: u32, c: u32) -> u64
    ensures { (result ≡ a + b + c) × (result < 12884901888) }
{
    u64::from(a) + u64::from(b) + u64::from(c)
}

// Lines that stopped, whatever with. Each is named: a sum over `iter` was proved, and is compiled wrongly for machines of
// 32 bits, which the boards show.
fn stopped(stops: [u32; 9]) -> u64
    ensures { (result ≡ all_stops (counts stops)) × (result < 38654705664) }
{
    let a = three(stops[0], stops[1], stops[2]);
    let b = three(stops[3], stops[4], stops[5]);
    let c = three(stops[6], stops[7], stops[8]);
    a + b + c
}

// Lines that were bad or stopped.
fn unpaid(s: Sums) -> u64
    ensures { result ≡ not_paid (report_in s) }
{
    u64::from(s.bad) + stopped(s.stops)
}

// All the others.
pub fn paid(s: Sums) -> u32
    ensures { result ≡ paid_lines (report_in s) }
{
    u64::from(s.lines).saturating_sub(unpaid(s)) as u32
}

// Whether they can be those of a shift.
#[tactic(auto, using(std::proofs::lemmas::Int::ints), unfolding(language::specs::Combining::possible))]
pub fn possible(s: Sums) -> bool
    ensures { result ≡ Combining.possible (report_in s) }
{
    s.lines <= LINES
        && unpaid(s) <= u64::from(s.lines)
        && paying::payable(paid(s), s.sum, s.least, s.largest)
}

// Whether the two are of as many lines together as a shift may have.
#[tactic(auto, unfolding(language::specs::Combining::addable))]
pub fn addable(a: Sums, b: Sums) -> bool
    ensures { result ≡ Combining.addable (report_in a) (report_in b) }
{
    possible(a) && possible(b) && a.lines.saturating_add(b.lines) <= LINES
}

fn counted(a: [u32; 9], b: [u32; 9]) -> [u32; 9]
    requires { all_stops (counts a) + all_stops (counts b) ≤ Sizes.LINES }
    ensures { result ≡ nine_both a b }
{
    let mut both = a;
    for (i, n) in b.iter().enumerate() {
        both[i] += n;
    }
    both
}

// What is told of two parts in which so many were paid; where nobody was in the one, it is that of the other.
fn either(n: u32, y: i64, m: u32, z: i64, both: i64) -> i64
    ensures { result ≡ cond (eqb n 0) z (cond (eqb m 0) y both) }
{
    match (n, m) {
        (0, _) => z,
        (_, 0) => y,
        _ => both,
    }
}

// Both together.
pub fn both(a: Sums, b: Sums) -> Sums
    requires { Combining.addable (report_in a) (report_in b) ≡ true }
    ensures { Both a b result }
{
    let n = paid(a);
    let m = paid(b);
    Sums {
        lines: a.lines + b.lines,
        bad: a.bad + b.bad,
        stops: counted(a.stops, b.stops),
        paid: n + m,
        sum: a.sum + b.sum,
        least: either(n, a.least, m, b.least, a.least.min(b.least)),
        largest: either(n, a.largest, m, b.largest, b.largest.max(a.largest)),
    }
}
