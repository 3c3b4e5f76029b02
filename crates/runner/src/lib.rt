// Runs a reading that has a type, by a loop: what waits lies as frames in lent work memory, beside the slots for
// bindings and operands and the cells. Each node uses a unit when it begins. Work memory is cleared at the end, and
// bytes go to the lent output.
//
// Kinds, phases and modes are told by tests one after the other, the frequent ones first, and what comes next goes from
// function to function part by part, its spot built where it changes. Told by a `match`, and handed on whole, a unit took
// up to seven instructions more of some ninety (`bench/run`). Facts of the table, a node and a frame stand in the contract
// of each function, as `layout` says of lent memory.
#![tactic(auto)]

mod begin;
mod calls;
mod loops;
mod resume;
mod state;

ghost use Rattle.std.specs.Prelude.{◌≡◌, ◌+◌, ◌≤◌};
ghost use Rattle.language.specs.Sizes.{ALLOWANCE};
ghost use Rattle.runner.specs.Standing.{Good, Any, Turns, Steps, Ran};
ghost use Rattle.runner.specs.Contract.{Loaded, RunsTo, reported};

use crate::state::{Mode, Next, Spot};
use language::WORK;
use layout::values::Value;
use layout::{Held, frames, memory};
use machine::state::Tally;
use numbers::{Located, Stop};

// The units that are left of the allowance, and how many bytes were printed.
#[derive(Clone, Copy)]
pub struct Spent {
    pub left: u32,
    pub printed: usize,
}

// A value, or why and at which token the run stopped; and what was used for it.
#[derive(Clone, Copy)]
pub struct Done {
    pub result: Result<Value, Located<Stop, u32>>,
    pub spent: Spent,
}

// A node that is to begin does.
fn begun(table: &[u32], work: &mut [u32], out: &mut [u8], n: Next) -> Next
    requires { Any (λ q. Good q table.now work.old out.old n) }
    ensures { Turns table.now work.old out.old work.new
        out.new n result Mode.Begin }
{
    let mode = n.mode;
    let v = n.value;
    match mode {
        Mode::Begin => begin::begin(table, work, n.node, v, n.spot, n.tally),
        Mode::Give => n,
        Mode::Over => n,
        Mode::Halt(_, _) => n,
    }
}

// A value that is to be given is.
fn given(table: &[u32], work: &mut [u32], out: &mut [u8], n: Next) -> Next
    requires { Any (λ q. Good q table.now work.old out.old n) }
    ensures { Turns table.now work.old out.old work.new
        out.new n result Mode.Give }
{
    let mode = n.mode;
    let v = n.value;
    match mode {
        Mode::Begin => n,
        Mode::Give => resume::give(table, work, out, v, n.spot, n.tally),
        Mode::Over => n,
        Mode::Halt(_, _) => n,
    }
}

// A turn of the loop: a node begins, and if it has its value at once, that is given.
fn turn(table: &[u32], work: &mut [u32], out: &mut [u8], n: Next) -> Next
    requires { Any (λ q. Good q table.now work.old out.old n) }
    ensures { Steps table.now work.old out.old work.new
        out.new n result }
{
    let m = begun(table, work, out, n);
    given(table, work, out, m)
}

// Turn by turn, until it is over.
fn go(table: &[u32], work: &mut [u32], out: &mut [u8], first: Next) -> Next
    requires { Any (λ q. Good q table.now work.old out.old first) }
    ensures { Ran table.now work.old out.old work.new
        out.new first result }
{
    let mut next = first;
    while state::runs(next) {
        next = turn(table, work, out, next);
    }
    next
}

fn report(n: Next) -> Done
    requires { n.tally.units ≤ ALLOWANCE + 1 }
    ensures { result ≡ reported n }
{
    Done {
        result: match n.mode {
            Mode::Halt(why, place) => Err(Located { why, place }),
            _ => Ok(n.value),
        },
        spent: Spent {
            left: n.tally.units as u32,
            printed: n.tally.printed,
        },
    }
}

// Runs the program that the table holds, and whose names and calls are resolved.
pub fn run(table: &[u32], work: &mut [u32], out: &mut [u8], program: Held, allowance: u32) -> Done
    requires { Loaded table.now work.old program allowance }
    ensures { RunsTo table.now work.old out.old work.new
        out.new program allowance result }
{
    let first = Next {
        mode: Mode::Begin,
        node: program.root,
        value: Value::Nothing,
        spot: Spot {
            base: 0,
            size: 0,
            height: 1,
        },
        tally: Tally {
            units: allowance as usize,
            births: 0,
            cells: 0,
            printed: 0,
        },
    };
    frames::put(work, 0, 0, state::WHOLE, 0, 0, 0);
    let last = go(table, work, out, first);
    memory::clear(work, 0, WORK);
    report(last)
}
