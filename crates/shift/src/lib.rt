// The shift report: a rule book whose function `pay` is called once for each line of an input, and what all
// the lines come to. It stands above the services of the box and knows them by their promises alone. The
// input comes in pieces of any size: `begin`, `feed` as often as there is a piece, `finish`. What is carried
// between is plain data that the caller keeps; whatever he makes of it, nothing here wraps or goes past an
// end, and nothing is run of a book that is not admitted, since every piece asks that anew. Reports of two parts of
// an input add up to that of the whole: `combine`.
#![tactic(auto)]

ghost use Rattle.std.specs.Prelude.{◌≡◌};
ghost use Rattle.shift.specs.declared.Why.{Why};
ghost use Rattle.shift.specs.Meanings.{new_state, closed_sums};
ghost use Rattle.shift.specs.Promises.{Begin, Feed, Finish};
ghost use Rattle.language.specs.Combining.{without_sums};
ghost use Rattle.language.specs.Shift.{sheet, many_lines};
ghost use Rattle.numbers.specs.Meanings.{refusal_meant};
ghost use Rattle.shift.specs.Combining.{Tells, Together, Combine};

mod asking;
mod feeding;

use numbers::Refusal;
use pairs::Spot;
use sheets::Refused;
use tally::lines::Part;
use tally::sums::{Outcome, Sums};
use tally::{combining, lines, sums};

// What is carried: the units that each line may use, the line that has begun, what the lines before it add
// up to, and whether there was a line too many. All of it are words of C's, and the sums stay with a line too many.
#[derive(Clone, Copy)]
pub struct State {
    pub allowance: u64,
    pub part: Part,
    pub sums: Sums,
    pub over: bool,
}

// Why a shift is refused: as a sheet is, or because the book is none, or for its lines.
#[derive(Clone, Copy)]
pub enum Why {
    Sheet(Refusal),
    NoBook,
    ManyLines,
}

// Why, and where that is told. A type of its own and no `numbers::Located`, so that `?` may make it of a sheet's refusal.
#[derive(Clone, Copy)]
pub struct Denied {
    pub why: Why,
    pub spot: Spot,
}

impl From<Refused<Spot>> for Denied {
    ghost from_gives = { λ r d. d ≡ record { why = Why.Sheet r.why; spot = r.place } };

    fn from(refused: Refused<Spot>) -> Denied {
        Denied {
            why: Why::Sheet(refused.why),
            spot: refused.place,
        }
    }
}

// What is told of a book before any line.
pub type Admission = Result<(), Denied>;

// The state stands beside what is told, also of a refusal: `Begin` promises a new one, and `Feed` the one before.
#[derive(Clone, Copy)]
pub struct Answer {
    pub told: Admission,
    pub state: State,
}

// What is told in the end: of a report whether there was a line too many; or a refusal.
pub type Ending = Result<bool, Refusal>;

// The sums stand beside it, none where it is a refusal: whoever tells a report in words has words for them.
#[derive(Clone, Copy)]
pub struct Finished {
    pub told: Ending,
    pub sums: Sums,
}

// A shift before its first line.
fn fresh(allowance: u64) -> State
    ensures { result ≡ new_state allowance }
{
    State {
        allowance,
        part: lines::none(),
        sums: sums::none(),
        over: false,
    }
}

pub fn begin(
    edition: u32,
    book: &[u8],
    table: &mut [u32],
    work: &mut [u32],
    allowance: u64,
) -> Answer
    ensures { Begin edition book.now table.old work.old allowance result table.new
        work.new }
{
    let told = asking::asked(edition, book, table, work, allowance);
    let state = fresh(allowance);
    Answer { told, state }
}

// One piece more; `out` is what each line prints to, from its front on.
pub fn feed(
    edition: u32,
    book: &[u8],
    piece: &[u8],
    table: &mut [u32],
    work: &mut [u32],
    out: &mut [u8],
    state: State,
) -> Answer
    ensures { Feed edition book.now piece.now table.old work.old
        out.old state result table.new work.new out.new }
{
    match asking::asked(edition, book, table, work, state.allowance) {
        Ok(()) => Answer {
            told: Ok(()),
            state: feeding::bytes(edition, book, piece, table, work, out, state),
        },
        Err(denied) => Answer {
            told: Err(denied),
            state,
        },
    }
}

// A line that has begun and not ended is a bad one.
#[tactic(auto, unfolding(crate::specs::Meanings::closed_sums))]
fn closing(state: State) -> Sums
    ensures { result ≡ closed_sums state }
{
    if !state.over && lines::begun(state.part) {
        return sums::add(state.sums, Outcome::Bad);
    }
    state.sums
}

pub fn finish(edition: u32, state: State) -> Finished
    ensures { Finish edition state result.told result.sums }
{
    if grumpy::knows(edition) {
        let sums = closing(state);
        return Finished {
            told: Ok(state.over),
            sums,
        };
    }
    let sums = sums::none();
    Finished {
        told: Err(Refusal::NoEdition),
        sums,
    }
}

// This and `overfull` are two functions: the contract of each says which written ending it tells.
fn refused(why: Refusal) -> Finished
    ensures { Tells result (without_sums (sheet (refusal_meant why))) }
{
    let sums = sums::none();
    Finished {
        told: Err(why),
        sums,
    }
}

// A line too many: the sums of those before it are not in the reports of two parts.
fn overfull() -> Finished
    ensures { Tells result (without_sums many_lines) }
{
    let sums = sums::none();
    Finished {
        told: Ok(true),
        sums,
    }
}

// Two parts of which neither is refused.
fn together(a: Sums, b: Sums) -> Finished
    ensures { Together a b result }
{
    if combining::addable(a, b) {
        let sums = combining::both(a, b);
        return Finished {
            told: Ok(false),
            sums,
        };
    }
    overfull()
}

// What is told of an input whose two parts were told this, the first of which ends at a line's end. Where one is
// refused, so is the whole: for the first refusal that is not for the lines, and else for these.
pub fn combine(first: Finished, second: Finished) -> Finished
    ensures { Combine first second result }
{
    match (first.told, second.told) {
        (Err(why), _) | (Ok(_), Err(why)) => refused(why),
        (Ok(false), Ok(false)) => together(first.sums, second.sums),
        (Ok(_), Ok(_)) => overfull(),
    }
}
