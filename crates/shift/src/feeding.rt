// The bytes of a piece, one after the other. Nothing is asked of the state, which is the caller's. Table, work memory
// and output are handed on apart, as C lends them: each contract says of each what it was and what it is.
ghost use Rattle.std.specs.Prelude.{◌∷◌, [], ◌≡◌, ◌≤◌};
ghost use Rattle.language.specs.Sizes.{LARGEST};
ghost use Rattle.shift.specs.Feeding.{Lends, ReadyForSome, paid_as, ended_as, RanForAny, CameForAny};
ghost use Rattle.shift.specs.Feeding.{GoesForAny, Goes};
ghost use Rattle.shift.specs.Taking.{Going, with_byte, overfull};

use crate::State;
use grumpy::answers::Ending;
use grumpy::calls;
use language::TABLE;
use layout::values::Value;
use layout::{Held, memory};
use tally::lines::{Job, Part};
use tally::sums::Outcome;
use tally::{LINES, lines, sums};

// What a value is paid as. A book that was admitted gives an int.
fn paid(value: Value) -> Outcome
    ensures { result ≡ paid_as value }
{
    match value {
        Value::Int(pay) => Outcome::Paid(pay as i64),
        _ => Outcome::Bad,
    }
}

// What the end of a run is counted as.
fn ended(ending: Ending<u32>) -> Outcome
    ensures { result ≡ ended_as ending }
{
    match ending.end {
        Ok(value) => paid(value),
        Err(stop) => Outcome::Stopped(stop.why),
    }
}

// A good line runs the book with its call.
fn run(
    program: Held,
    job: Job,
    table: &mut [u32],
    work: &mut [u32],
    out: &mut [u8],
    allowance: u64,
) -> Outcome
    requires { ReadyForSome program table.old work.old allowance × (job.picks ≤ LARGEST) × (job.rate ≤ LARGEST) }
    ensures { RanForAny program record { picks = job.picks; rate = job.rate } table.old work.old
        out.old allowance result table.new work.new out.new }
{
    ended(calls::call(table, work, out, program, job.picks, job.rate, allowance))
}

// A line that has ended, of which so much was kept.
fn come(
    program: Held,
    part: Part,
    table: &mut [u32],
    work: &mut [u32],
    out: &mut [u8],
    allowance: u64,
) -> Outcome
    requires { ReadyForSome program table.old work.old allowance }
    ensures { CameForAny program part table.old work.old out.old allowance result
        table.new work.new out.new }
{
    match lines::ended(part) {
        Some(job) => run(program, job, table, work, out, allowance),
        None => Outcome::Bad,
    }
}

// The LF of a line: one line more is summed up.
fn line(program: Held, table: &mut [u32], work: &mut [u32], out: &mut [u8], state: State) -> State
    requires { ReadyForSome program table.old work.old state.allowance × Going state }
    ensures { GoesForAny program (10 ∷ []) table.old work.old out.old state
        result table.new work.new out.new }
{
    let outcome = come(program, state.part, table, work, out, state.allowance);
    State {
        part: lines::none(),
        sums: sums::add(state.sums, outcome),
        ..state
    }
}

// Any other byte of a line.
fn within(state: State, b: u8) -> State
    ensures { result ≡ with_byte state b }
{
    State {
        part: lines::more(state.part, b),
        ..state
    }
}

// There was a line too many.
fn filled(state: State) -> State
    ensures { result ≡ overfull state }
{
    State {
        over: true,
        ..state
    }
}

// One byte more.
fn byte(
    program: Held,
    b: u8,
    table: &mut [u32],
    work: &mut [u32],
    out: &mut [u8],
    state: State,
) -> State
    requires { ReadyForSome program table.old work.old state.allowance }
    ensures { GoesForAny program (b ∷ []) table.old work.old out.old state result
        table.new work.new out.new }
{
    if state.over {
        return state;
    }
    if LINES <= state.sums.lines {
        return filled(state);
    }
    if b == b'\n' {
        return line(program, table, work, out, state);
    }
    within(state, b)
}

// All bytes of a piece: the book is read once, and the table cleared at the end.
pub fn bytes(
    edition: u32,
    book: &[u8],
    piece: &[u8],
    table: &mut [u32],
    work: &mut [u32],
    out: &mut [u8],
    state: State,
) -> State
    requires { Lends edition book.now table.old work.old out.old state.allowance }
    ensures { Goes edition book.now piece.now table.old work.old
        out.old state result table.new work.new out.new }
{
    let program = calls::prepare(edition, book, table);
    let mut so_far = state;
    for b in piece {
        so_far = byte(program, *b, table, work, out, so_far);
    }
    memory::clear(table, 0, TABLE);
    so_far
}
