// A value goes to the frame that waits for it, and its node goes on.
ghost use Rattle.std.specs.Prelude.{◌≡◌, ◌+◌, ◌*◌, ◌≤◌, ◌<◌, length};
ghost use Rattle.language.specs.Sizes.{ALLOWANCE, WORK};
ghost use Rattle.layout.specs.Slots.{SLOTS, put_slot};
ghost use Rattle.layout.specs.Frames.{FRAMES, put_phase};
ghost use Rattle.layout.specs.Values.{Survives};
ghost use Rattle.machine.specs.Outcomes.{Room};
ghost use Rattle.runner.specs.Phases.{UNARY, LEFT, RIGHT, ARGUMENT, COUNTED, NAMELESS, Controls};
ghost use Rattle.runner.specs.Standing.{Gives, Resumes, Some, Goes, Any, Prints, Creating, above, begun};

use crate::state::{Next, Spot};
use crate::{calls, loops, state};
use language::kinds;
use layout::values::Value;
use layout::{SLOTS_AT, frames, rows, slots};
use machine::state::Tally;
use machine::{cells, operands, operations};

const NEW: u32 = rows::PREFIX + kinds::REF;

pub fn give(table: &[u32], work: &mut [u32], out: &mut [u8], v: Value, spot: Spot, s: Tally) -> Next
    requires { Any (λ q. Gives q table.now work.old out.old v spot s) }
    ensures { Prints (λ q. Gives q table.now work.old out.old v spot
        s) table.now work.new out.new (3 * s.units + spot.height + 2) result }
{
    let h = spot.height - 1;
    let node = frames::link(work, h, frames::NODE);
    let phase = frames::word(work, h, frames::PHASE);
    let base = frames::link(work, h, frames::BASE);
    let size = frames::size(work, h);
    let back = Spot {
        base,
        size,
        height: h,
    };
    if phase == state::ARGUMENT {
        return calls::argument(table, work, out, v, node, back, s);
    }
    if phase == state::COUNTED {
        return loops::next(table, work, v, node, back, s);
    }
    resume(table, work, v, node, phase, back, s)
}

fn resume(
    table: &[u32],
    work: &mut [u32],
    v: Value,
    node: usize,
    phase: u32,
    spot: Spot,
    s: Tally,
) -> Next
    requires { Some (λ q o. Resumes q table.now work.old o v node phase spot s) × (phase ≡ ARGUMENT → ⊥)
        × (phase ≡ COUNTED → ⊥) }
    ensures { Goes (λ q o. Resumes q table.now work.old o v node phase spot s)
        table.now work.new (3 * s.units + spot.height + 3) result }
{
    // Told one by one, the most frequent first, as kinds are (`begin::start`). They are numbers, as kinds of rows are:
    // words of lent memory, read at every step.
    if phase == state::LAST {
        return state::gives(v, spot, s);
    }
    if phase == state::RIGHT {
        return right(table, work, v, node, spot, s);
    }
    if phase == state::LEFT {
        return left(table, work, v, node, spot, s);
    }
    if phase == state::UNARY {
        return unary(table, work, v, node, spot, s);
    }
    if phase == state::BEFORE {
        let part = rows::link(table, node, rows::SECOND);
        return turn(work, state::LAST, part, v, spot, s);
    }
    if phase == state::INSIDE {
        let height = spot.height;
        let live = frames::mark(work, height);
        let t = cells::free(s, live);
        return state::gives(v, spot, t);
    }
    control(table, work, v, node, phase, spot, s)
}

// `let`, `if` and `while`; and where no node is left, the value is that of the whole.
fn control(
    table: &[u32],
    work: &mut [u32],
    v: Value,
    node: usize,
    phase: u32,
    spot: Spot,
    s: Tally,
) -> Next
    requires { Some (λ q o. Resumes q table.now work.old o v node phase spot s) × Controls phase }
    ensures { Goes (λ q o. Resumes q table.now work.old o v node phase spot s)
        table.now work.new (3 * s.units + spot.height + 3) result }
{
    if phase == state::BOUND {
        let part = rows::link(table, node, rows::SECOND);
        return hold(work, v, state::LAST, part, spot, s);
    }
    if phase == state::CONDITION {
        if operands::is_true(v) {
            let part = rows::link(table, node, rows::SECOND);
            return turn(work, state::LAST, part, v, spot, s);
        }
        let other = rows::link(table, node, rows::THIRD);
        return turn(work, state::LAST, other, v, spot, s);
    }
    if phase == state::TEST {
        if operands::is_true(v) {
            let part = rows::link(table, node, rows::SECOND);
            return turn(work, state::PASS, part, v, spot, s);
        }
        return state::gives(Value::Nothing, spot, s);
    }
    if phase == state::PASS {
        let part = rows::link(table, node, rows::FIRST);
        return turn(work, state::TEST, part, v, spot, s);
    }
    state::done(v, spot, s)
}

// The frame waits for another part, which begins.
fn turn(work: &mut [u32], phase: u32, part: usize, v: Value, spot: Spot, s: Tally) -> Next
    requires { (WORK ≤ length work.old) × (spot.height < FRAMES) }
    ensures { (work.new ≡ put_phase work.old spot.height phase)
        × (result ≡ begun part v (above spot.base spot.size spot) s) }
{
    let height = spot.height;
    frames::turn(work, height, phase);
    let inner = Spot {
        base: spot.base,
        size: spot.size,
        height: height + 1,
    };
    state::begins(part, v, inner, s)
}

// The value goes into the slot above those in sight, and another part begins, which has it in sight, too.
fn hold(work: &mut [u32], v: Value, phase: u32, part: usize, spot: Spot, s: Tally) -> Next
    requires { (WORK ≤ length work.old) × (spot.height < FRAMES) × (spot.base + spot.size < SLOTS) }
    ensures { (work.new
        ≡ put_phase (put_slot work.old 0 (spot.base + spot.size) NAMELESS v) spot.height phase)
        × (result ≡ begun part v (above spot.base (spot.size + 1) spot) s) × Survives v }
{
    let base = spot.base;
    let size = spot.size;
    let height = spot.height;
    slots::put(work, SLOTS_AT, base + size, state::NAMELESS, v);
    frames::turn(work, height, phase);
    let inner = Spot {
        base,
        size: size + 1,
        height: height + 1,
    };
    state::begins(part, v, inner, s)
}

// The left side is worked out: it settles the node, or it is held while the right side is worked out.
fn left(table: &[u32], work: &mut [u32], v: Value, node: usize, spot: Spot, s: Tally) -> Next
    requires { Some (λ q o. Resumes q table.now work.old o v node LEFT spot s) }
    ensures { Goes (λ q o. Resumes q table.now work.old o v node LEFT spot s)
        table.now work.new (3 * s.units + spot.height + 3) result }
{
    let op = rows::word(table, node, rows::KIND);
    if operations::settles(op, v) {
        return state::gives(v, spot, s);
    }
    let part = rows::link(table, node, rows::SECOND);
    hold(work, v, state::RIGHT, part, spot, s)
}

fn right(table: &[u32], work: &mut [u32], v: Value, node: usize, spot: Spot, s: Tally) -> Next
    requires { Some (λ q o. Resumes q table.now work.old o v node RIGHT spot s) }
    ensures { Goes (λ q o. Resumes q table.now work.old o v node RIGHT spot s)
        table.now work.new (3 * s.units + spot.height + 3) result }
{
    let op = rows::word(table, node, rows::KIND);
    let place = rows::word(table, node, rows::OWN);
    let at = spot.base + spot.size;
    let a = slots::value(work, SLOTS_AT, at);
    let r = operations::apply_binary(op, work, a, v, s);
    state::onward(r, place, v, spot, s)
}

fn unary(table: &[u32], work: &mut [u32], v: Value, node: usize, spot: Spot, s: Tally) -> Next
    requires { Some (λ q o. Resumes q table.now work.old o v node UNARY spot s) }
    ensures { Goes (λ q o. Resumes q table.now work.old o v node UNARY spot s)
        table.now work.new (3 * s.units + spot.height + 3) result }
{
    let op = rows::word(table, node, rows::KIND);
    let place = rows::word(table, node, rows::OWN);
    if op == NEW {
        return create(work, place, v, spot, s);
    }
    let r = operations::apply_unary(op, work, v, s);
    state::onward(r, place, v, spot, s)
}

// `ref`
fn create(work: &mut [u32], place: u32, v: Value, spot: Spot, s: Tally) -> Next
    requires { Room work.old s × (s.births ≤ ALLOWANCE) }
    ensures { Creating place v work.old work.new spot s result }
{
    let r = cells::create(work, v, s);
    match r {
        Ok(x) => {
            let t = cells::born(s);
            state::gives(x, spot, t)
        }
        Err(why) => state::halts(why, place, v, spot, s),
    }
}
