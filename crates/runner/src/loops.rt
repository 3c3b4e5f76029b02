// A `for`: its bounds are worked out as a call's arguments are; then its body begins for each number that is due.
ghost use Rattle.std.specs.Prelude.{true, false, ◌≡◌, ◌+◌, ◌*◌, ◌≤◌, ◌<◌, length};
ghost use Rattle.language.specs.Sizes.{NODES, TABLE, WORK};
ghost use Rattle.layout.specs.Table.{KIND, row_word};
ghost use Rattle.layout.specs.Decode.{counts};
ghost use Rattle.layout.specs.Slots.{SLOTS};
ghost use Rattle.layout.specs.Frames.{FRAMES};
ghost use Rattle.runner.specs.Phases.{ARGUMENT, COUNTED};
ghost use Rattle.runner.specs.Standing.{Resumes, Some, Goes, LastOf};
ghost use Rattle.runner.specs.Loops.{Counting, BodyBegins};

use crate::state;
use crate::state::{Next, Spot};
use language::kinds;
use layout::values::Value;
use layout::{SLOTS_AT, frames, rows, slots};
use machine::counting;
use machine::state::Tally;
use numbers::Stop;

// The last bound has its value. With two of them no step is written.
pub fn bounded(
    table: &[u32],
    work: &mut [u32],
    v: Value,
    node: usize,
    k: usize,
    spot: Spot,
    s: Tally,
) -> Next
    requires { Some (λ q o. Resumes q table.now work.old o v node ARGUMENT spot s)
        × LastOf table.now work.old spot.height k × (counts (row_word table.now node KIND) ≡ true) }
    ensures { Goes (λ q o. Resumes q table.now work.old o v node ARGUMENT spot s)
        table.now work.new (3 * s.units + spot.height + 3) result }
{
    let at = spot.base + spot.size;
    let from = slots::value(work, SLOTS_AT, at);
    if k == 1 {
        let by = counting::step(from, v);
        return first(table, work, node, from, v, by, v, spot, s);
    }
    let to = slots::value(work, SLOTS_AT, at + 1);
    first(table, work, node, from, to, v, v, spot, s)
}

// A step of zero stops it before anything else is looked at.
fn first(
    table: &[u32],
    work: &mut [u32],
    node: usize,
    from: Value,
    to: Value,
    by: Value,
    v: Value,
    spot: Spot,
    s: Tally,
) -> Next
    requires { Some (λ q o. Counting q table.now work.old o true node from to by spot s) }
    ensures { Goes (λ q o. Counting q table.now work.old o true node from to by spot s)
        table.now work.new (3 * s.units + spot.height + 3) result }
{
    if counting::still(by) {
        let place = rows::word(table, node, rows::OWN);
        return state::halts(Stop::ZeroStep, place, v, spot, s);
    }
    turn(table, work, node, from, to, by, v, spot, s)
}

// A pass for z, if one is due.
fn turn(
    table: &[u32],
    work: &mut [u32],
    node: usize,
    z: Value,
    to: Value,
    by: Value,
    v: Value,
    spot: Spot,
    s: Tally,
) -> Next
    requires { Some (λ q o. Counting q table.now work.old o false node z to by spot s) }
    ensures { Goes (λ q o. Counting q table.now work.old o false node z to by spot s)
        table.now work.new (3 * s.units + spot.height + 3) result }
{
    let kind = rows::word(table, node, rows::KIND);
    if counting::passes(kind == kinds::THROUGH, to, by, z) {
        return pass(table, work, node, z, to, by, v, spot, s);
    }
    state::gives(Value::Nothing, spot, s)
}

// The body begins. Its name is bound in the slot above those in sight, and the end and the step wait above it.
fn pass(
    table: &[u32],
    work: &mut [u32],
    node: usize,
    z: Value,
    to: Value,
    by: Value,
    v: Value,
    spot: Spot,
    s: Tally,
) -> Next
    requires { (TABLE ≤ length table.now) × (node < NODES) × (WORK ≤ length work.old) × (spot.height < FRAMES)
        × (spot.base + spot.size + 2 < SLOTS) }
    ensures { BodyBegins table.now work.old work.new node z to by v spot s result }
{
    let part = rows::link(table, node, rows::PASS);
    let base = spot.base;
    let size = spot.size;
    let height = spot.height;
    slots::put(work, SLOTS_AT, base + size, state::NAMELESS, z);
    slots::put(work, SLOTS_AT, base + size + 1, state::NAMELESS, to);
    slots::put(work, SLOTS_AT, base + size + 2, state::NAMELESS, by);
    frames::turn(work, height, state::COUNTED);
    let inner = Spot {
        base,
        size: size + 3,
        height: height + 1,
    };
    state::begins(part, v, inner, s)
}

// A pass is over, and the number behind its own may be due.
pub fn next(table: &[u32], work: &mut [u32], v: Value, node: usize, spot: Spot, s: Tally) -> Next
    requires { Some (λ q o. Resumes q table.now work.old o v node COUNTED spot s) }
    ensures { Goes (λ q o. Resumes q table.now work.old o v node COUNTED spot s)
        table.now work.new (3 * s.units + spot.height + 3) result }
{
    let at = spot.base + spot.size;
    let z = slots::value(work, SLOTS_AT, at);
    let to = slots::value(work, SLOTS_AT, at + 1);
    let by = slots::value(work, SLOTS_AT, at + 2);
    let n = counting::next(z, by);
    match n {
        Some(x) => turn(table, work, node, x, to, by, v, spot, s),
        None => state::gives(Value::Nothing, spot, s),
    }
}
