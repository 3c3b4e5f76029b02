// Where a run stands between two steps.
ghost use Rattle.std.specs.Prelude.{◌≡◌};
ghost use Rattle.runner.specs.Standing.{Ending, running, begun, given, over, onward};

use layout::values::Value;
use machine::state::Tally;
use numbers::Stop;

// A node begins, a value goes to the frame that waits for it, or it is over: with the value, or by a stop at a token.
// Why and where it stops stand here, so that a run carries nothing of it from step to step.
#[derive(Clone, Copy)]
pub enum Mode {
    Begin,
    Give,
    Over,
    Halt(Stop, u32),
}

// The slots in sight, from slot `base` on, and how many frames wait.
#[derive(Clone, Copy)]
pub struct Spot {
    pub base: usize,
    pub size: usize,
    pub height: usize,
}

// What comes next. Its parts go from function to function one by one: handed on whole, they are copied, and a unit has
// some seven instructions more, of 92. The node is the one that begins, and the value the one that was given last.
#[derive(Clone, Copy)]
pub struct Next {
    pub mode: Mode,
    pub node: usize,
    pub value: Value,
    pub spot: Spot,
    pub tally: Tally,
}

// The phases of a frame: for which part of its node it waits. They are words of lent memory, and what they mean is said
// of any word (`Resumes`).
pub const LAST: u32 = 0;

pub const UNARY: u32 = 1;

pub const LEFT: u32 = 2;

pub const RIGHT: u32 = 3;

pub const BEFORE: u32 = 4;

pub const INSIDE: u32 = 5;

pub const BOUND: u32 = 6;

pub const CONDITION: u32 = 7;

pub const TEST: u32 = 8;

pub const PASS: u32 = 9;

pub const ARGUMENT: u32 = 10;

// Below all frames: the whole run waits.
pub const WHOLE: u32 = 11;

// A pass of a `for`.
pub const COUNTED: u32 = 12;

// The key of every slot of a frame: which slot a name means is noted, so none is sought by its key.
pub const NAMELESS: u32 = 0;

pub fn begins(node: usize, value: Value, spot: Spot, tally: Tally) -> Next
    ensures { result ≡ begun node value spot tally }
{
    Next {
        mode: Mode::Begin,
        node,
        value,
        spot,
        tally,
    }
}

// This and its neighbours are a function for each way to go on, as the written ones are.
pub fn gives(value: Value, spot: Spot, tally: Tally) -> Next
    ensures { result ≡ given value spot tally }
{
    Next {
        mode: Mode::Give,
        node: 0,
        value,
        spot,
        tally,
    }
}

// The run ends with a value.
pub fn done(value: Value, spot: Spot, tally: Tally) -> Next
    ensures { result ≡ over Ending.complete value spot tally }
{
    Next {
        mode: Mode::Over,
        node: 0,
        value,
        spot,
        tally,
    }
}

// The run stops.
pub fn halts(why: Stop, place: u32, value: Value, spot: Spot, tally: Tally) -> Next
    ensures { result ≡ over (Ending.stopped why place) value spot tally }
{
    Next {
        mode: Mode::Halt(why, place),
        node: 0,
        value,
        spot,
        tally,
    }
}

// What an operator gave goes on, or the run stops at its token. The value is the one given before.
pub fn onward(r: Result<Value, Stop>, place: u32, value: Value, spot: Spot, tally: Tally) -> Next
    ensures { result ≡ onward r place value spot tally }
{
    match r {
        Ok(v) => gives(v, spot, tally),
        Err(why) => halts(why, place, value, spot, tally),
    }
}

// Is it not over?
pub fn runs(n: Next) -> bool
    ensures { result ≡ running n }
{
    let mode = n.mode;
    match mode {
        Mode::Begin => true,
        Mode::Give => true,
        Mode::Over => false,
        Mode::Halt(_, _) => false,
    }
}
