// A node begins: it uses a unit, and gives its value, or waits in a frame while its first part is worked out.
ghost use Rattle.std.specs.Prelude.{◌≡◌, ◌+◌, ◌*◌, ◌-◌, ◌≤◌, ◌<◌, length};
ghost use Rattle.language.specs.Sizes.{NODES, WORK};
ghost use Rattle.language.specs.Tokens.{NAME};
ghost use Rattle.layout.specs.Table.{KIND, row_word};
ghost use Rattle.layout.specs.Frames.{FRAMES, SIZES, put_frame};
ghost use Rattle.runner.specs.Phases.{waits, phase_of, operates};
ghost use Rattle.runner.specs.Standing.{Begins, Starts, Some, Goes, charged, above, begun};

use crate::state::{Next, Spot};
use crate::{calls, loops, state};
use language::{ACTIVE, kinds};
use layout::values::Value;
use layout::{SLOTS_AT, frames, notes, rows, slots};
use machine::leaves;
use machine::state::Tally;
use numbers::Stop;

// One unit less.
fn charge(s: Tally) -> Tally
    requires { 1 ≤ s.units }
    ensures { result ≡ charged s }
{
    Tally {
        units: s.units - 1,
        ..s
    }
}

pub fn begin(table: &[u32], work: &mut [u32], node: usize, v: Value, spot: Spot, s: Tally) -> Next
    requires { Some (λ q o. Begins q table.now work.old o node spot s) }
    ensures { Goes (λ q o. Begins q table.now work.old o node spot s)
        table.now work.new (3 * s.units + spot.height + 1) result }
{
    if machine::state::exhausted(s) {
        let place = rows::word(table, node, rows::OWN);
        return state::halts(Stop::NoUnit, place, v, spot, s);
    }
    let t = charge(s);
    let height = spot.height;
    if height == ACTIVE + 1 {
        let place = rows::word(table, node, rows::OWN);
        return state::halts(Stop::TooDeep, place, v, spot, t);
    }
    start(table, work, node, v, spot, t)
}

// Does a node of this kind wait for its first part? All do but names, literals, calls and `for`s.
fn waits(kind: u32) -> bool
    ensures { result ≡ waits kind }
{
    if kind == kinds::FLOAT_NUMBER {
        return false;
    }
    if kinds::PLUS <= kind {
        return true;
    }
    if kind == kinds::LET {
        return true;
    }
    if kind == kinds::IF {
        return true;
    }
    kind == kinds::WHILE
}

// In which phase. (Told one by one, as in `start`: a `match` is longer.)
fn phase_of(kind: u32) -> u32
    ensures { result ≡ phase_of kind }
{
    if kind == kinds::LPAR {
        return state::LAST;
    }
    if kind == kinds::LBRACE {
        return state::INSIDE;
    }
    if kind == kinds::SEMI {
        return state::BEFORE;
    }
    if kind == kinds::LET {
        return state::BOUND;
    }
    if kind == kinds::IF {
        return state::CONDITION;
    }
    if kind == kinds::WHILE {
        return state::TEST;
    }
    if rows::PREFIX <= kind {
        return state::UNARY;
    }
    state::LEFT
}

// Is it an operator between two operands?
#[tactic(auto, unfolding(crate::specs::Phases::operates))]
fn operates(kind: u32) -> bool
    ensures { result ≡ operates kind }
{
    kinds::PLUS <= kind && kind <= kinds::BECOMES
}

// A node that has used its unit. Names, numbers and operators, of which most nodes are, are told first.
fn start(table: &[u32], work: &mut [u32], node: usize, v: Value, spot: Spot, s: Tally) -> Next
    requires { Some (λ q o. Starts q table.now work.old o node spot s) }
    ensures { Goes (λ q o. Starts q table.now work.old o node spot s)
        table.now work.new (3 * s.units + spot.height + 3) result }
{
    let kind = rows::word(table, node, rows::KIND);
    // Told one by one: a `match` here and on phases makes a unit some seven instructions longer, of 92.
    if kind == kinds::NAME {
        return look(table, work, node, spot, s);
    }
    if kind == kinds::NUMBER {
        let number = leaves::literal(table, node);
        return state::gives(number, spot, s);
    }
    if operates(kind) {
        let left = rows::link(table, node, rows::FIRST);
        return wait(work, node, state::LEFT, 0, left, v, spot, s);
    }
    if rows::PREFIX <= kind {
        let operand = rows::link(table, node, rows::FIRST);
        return wait(work, node, state::UNARY, 0, operand, v, spot, s);
    }
    other(table, work, node, kind, v, spot, s)
}

// A node of any kind but a name's.
fn other(
    table: &[u32],
    work: &mut [u32],
    node: usize,
    kind: u32,
    v: Value,
    spot: Spot,
    s: Tally,
) -> Next
    requires { Some (λ q o. Starts q table.now work.old o node spot s)
        × (kind ≡ row_word table.now node KIND) × (kind ≡ NAME → ⊥) }
    ensures { Goes (λ q o. Starts q table.now work.old o node spot s)
        table.now work.new (3 * s.units + spot.height + 3) result }
{
    if kind == rows::CALL {
        return calls::call(table, work, node, v, spot, s);
    }
    if rows::counts(kind) {
        let bound = rows::link(table, node, rows::START);
        return calls::pass(table, work, node, bound, 0, v, spot, s);
    }
    if waits(kind) {
        let phase = phase_of(kind);
        let first = rows::link(table, node, rows::FIRST);
        return wait(work, node, phase, s.cells, first, v, spot, s);
    }
    let found = leaves::literal(table, node);
    state::gives(found, spot, s)
}

// What the nearest binding of the name holds, whose slot is noted of its token.
fn look(table: &[u32], work: &[u32], node: usize, spot: Spot, s: Tally) -> Next
    requires { Some (λ q o. Starts q table.now work.now o node spot s)
        × (row_word table.now node KIND ≡ NAME) }
    ensures { Goes (λ q o. Starts q table.now work.now o node spot s) table.now
        work.now (3 * s.units + spot.height + 3) result }
{
    let own = rows::link(table, node, rows::OWN);
    let slot = notes::note(table, own) as usize;
    let v = slots::value(work, SLOTS_AT, spot.base + slot);
    state::gives(v, spot, s)
}

// A frame for the node, and its part begins. The mark is for a Block: how many cells are live, so that it frees those
// that come.
fn wait(
    work: &mut [u32],
    node: usize,
    phase: u32,
    mark: usize,
    part: usize,
    v: Value,
    spot: Spot,
    s: Tally,
) -> Next
    requires { (WORK ≤ length work.old) × (spot.height < FRAMES) × (node < NODES) × (spot.base ≤ WORK)
        × (spot.size < SIZES) × (mark ≤ WORK) }
    ensures { (work.new
        ≡ put_frame work.old spot.height node phase spot.base spot.size mark)
        × (result ≡ begun part v (above spot.base spot.size spot) s) }
{
    let base = spot.base;
    let size = spot.size;
    let height = spot.height;
    frames::put(work, height, node, phase, base, size, mark);
    let inner = Spot {
        base,
        size,
        height: height + 1,
    };
    state::begins(part, v, inner, s)
}
