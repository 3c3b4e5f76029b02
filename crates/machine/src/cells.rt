// Cells: born, read and written by their birth number, the live ones alone.
ghost use Rattle.std.specs.Prelude.{◌≡◌, ◌≤◌, ◌<◌, length};
ghost use Rattle.language.specs.Sizes.{ALLOWANCE, CELLS, WORK};
ghost use Rattle.language.specs.Trees.{assign, fetch};
ghost use Rattle.language.specs.State.{cell};
ghost use Rattle.language.specs.Meaning.{apply_unary, apply_binary};
ghost use Rattle.layout.specs.Values.{meant};
ghost use Rattle.machine.specs.Slots.{Rising, Sought};
ghost use Rattle.machine.specs.Outcomes.{Room, Applied, Answered, Created, born};

use crate::state::Tally;
use language::CELLS;
use layout::values::Value;
use layout::{CELLS_AT, slots};
use numbers::Stop;

// Where the cell that was born as `birth` lies among the first n, if it is one of them. Cells lie in the order of
// their births, so half of what is left is passed by at each look. (The keys lie three words apart in lent memory, and
// `binary_search_by` looks through a slice of its own items.)
fn seek(work: &[u32], n: usize, birth: u32) -> Option<usize>
    requires { (n ≤ CELLS) × (WORK ≤ length work.now) × Rising work.now n }
    ensures { Sought work.now n birth result }
{
    let mut low = 0;
    let mut high = n;
    while low < high {
        let middle = low + (high - low) / 2;
        let born = slots::key(work, CELLS_AT, middle);
        if born == birth {
            return Some(middle);
        }
        if born < birth {
            low = middle + 1;
        } else {
            high = middle;
        }
    }
    None
}

// What the cell that was born as n holds.
pub fn fetch(work: &[u32], n: u32, s: Tally) -> Result<Value, Stop>
    requires { Room work.now s }
    ensures { Answered (λ i σ. apply_unary i fetch (cell n) σ) work.now s result }
{
    match seek(work, s.cells, n) {
        Some(i) => Ok(slots::value(work, CELLS_AT, i)),
        None => Err(Stop::CellFreed),
    }
}

// A new cell, with the next birth number, if there is room. Where it is born, `born` counts it.
pub fn create(work: &mut [u32], v: Value, s: Tally) -> Result<Value, Stop>
    requires { Room work.old s × (s.births ≤ ALLOWANCE) }
    ensures { Created (meant v) work.old work.new s result }
{
    if CELLS <= s.cells {
        return Err(Stop::CellsFull);
    }
    let birth = (s.births + 1) as u32;
    slots::put(work, CELLS_AT, s.cells, birth, v);
    Ok(Value::Cell(birth))
}

// A cell more.
pub fn born(s: Tally) -> Tally
    requires { (s.births ≤ ALLOWANCE) × (s.cells ≤ CELLS) }
    ensures { result ≡ born s }
{
    Tally {
        births: s.births + 1,
        cells: s.cells + 1,
        ..s
    }
}

// The cell that was born as n holds v from now on.
pub fn assign(work: &mut [u32], n: u32, v: Value, s: Tally) -> Result<Value, Stop>
    requires { Room work.old s × (s.births ≤ ALLOWANCE) }
    ensures { Applied (λ i σ. apply_binary i assign (cell n) (meant v) σ) work.old work.new
        s result }
{
    let Some(i) = seek(work, s.cells, n) else {
        return Err(Stop::CellFreed);
    };
    slots::put(work, CELLS_AT, i, n, v);
    Ok(Value::Nothing)
}

// The cells born since `live` were live are freed: they are the ones above, and their room is free again.
pub fn free(t: Tally, live: usize) -> Tally
    ensures { result ≡ record { units = t.units; births = t.births; cells = live; printed = t.printed } }
{
    Tally { cells: live, ..t }
}
