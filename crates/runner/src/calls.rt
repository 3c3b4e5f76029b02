// Calls: the arguments one after another, each into its slot, then the function's body, or `putchar`. The bounds of a
// `for` are worked out so, too.
ghost use Rattle.std.specs.Prelude.{◌≡◌, ◌+◌, ◌*◌, ◌≤◌, ◌<◌, length};
ghost use Rattle.language.specs.Sizes.{NODES, PARAMETERS, TABLE, WORK};
ghost use Rattle.layout.specs.Table.{KIND, OWN, ARITY, EXPRESSION, BODY, row_word};
ghost use Rattle.layout.specs.Rows.{CALL};
ghost use Rattle.layout.specs.Slots.{SLOTS, TAGS};
ghost use Rattle.layout.specs.Frames.{FRAMES, SIZES, put_frame};
ghost use Rattle.runner.specs.Phases.{ARGUMENT};
ghost use Rattle.runner.specs.Standing.{Starts, Resumes, Some, Goes, Any, Prints, LastOf};
ghost use Rattle.runner.specs.Standing.{Printing, Callable, Enters, Heads, callee, above, begun};

use crate::state::{Next, Spot};
use crate::{loops, state};
use layout::values::Value;
use layout::{NOBODY, SLOTS_AT, frames, notes, rows, slots};
use machine::output;
use machine::state::Tally;

// Which argument a frame waits for: its row and its number, in one mark.
const NUMBERS: usize = 8;

// The function that a call means, as it is noted of its token; `putchar` has no row.
fn callee(table: &[u32], node: usize) -> Option<usize>
    requires { Heads table.now node }
    ensures { result ≡ callee table.now node }
{
    let own = rows::link(table, node, rows::OWN);
    let row = notes::note(table, own);
    if row == NOBODY {
        None
    } else {
        Some(row as usize)
    }
}

pub fn call(table: &[u32], work: &mut [u32], node: usize, v: Value, spot: Spot, s: Tally) -> Next
    requires { Some (λ q o. Starts q table.now work.old o node spot s)
        × (row_word table.now node KIND ≡ CALL) }
    ensures { Goes (λ q o. Starts q table.now work.old o node spot s)
        table.now work.new (3 * s.units + spot.height + 3) result }
{
    let row = rows::link(table, node, rows::FIRST);
    if row == 0 {
        return match callee(table, node) {
            Some(head) => enter(table, work, head, node, v, spot, s),
            None => state::gives(v, spot, s),
        };
    }
    pass(table, work, node, row, 0, v, spot, s)
}

// Argument k, at a row of its own, begins, above those that wait.
pub fn pass(
    table: &[u32],
    work: &mut [u32],
    node: usize,
    row: usize,
    k: usize,
    v: Value,
    spot: Spot,
    s: Tally,
) -> Next
    requires { (TABLE ≤ length table.now) × (WORK ≤ length work.old) × (spot.height < FRAMES) × (node < NODES)
        × (row < NODES) × (k < PARAMETERS) × (spot.base ≤ WORK) × (spot.size < SIZES) }
    ensures { (work.new
        ≡ put_frame work.old spot.height node ARGUMENT spot.base spot.size (TAGS * row + k))
        × (result ≡ begun (row_word table.now row EXPRESSION) v (above spot.base (spot.size + k) spot)
        s) }
{
    let base = spot.base;
    let size = spot.size;
    let height = spot.height;
    let mark = NUMBERS * row + k;
    frames::put(work, height, node, state::ARGUMENT, base, size, mark);
    let part = rows::link(table, row, rows::EXPRESSION);
    let inner = Spot {
        base,
        size: size + k,
        height: height + 1,
    };
    state::begins(part, v, inner, s)
}

// The body begins, and sees the arguments alone, which lie in the first slots of its frame.
fn enter(
    table: &[u32],
    work: &mut [u32],
    head: usize,
    node: usize,
    v: Value,
    spot: Spot,
    s: Tally,
) -> Next
    requires { Callable table.now head × (WORK ≤ length work.old) × (spot.height < FRAMES) × (node < NODES)
        × (spot.base + spot.size + row_word table.now head ARITY ≤ SLOTS) }
    ensures { Enters table.now work.old work.new node head v spot s result }
{
    let base = spot.base;
    let size = spot.size;
    let height = spot.height;
    let count = rows::link(table, head, rows::ARITY);
    let body = rows::link(table, head, rows::BODY);
    frames::put(work, height, node, state::LAST, base, size, 0);
    let inner = Spot {
        base: base + size,
        size: count,
        height: height + 1,
    };
    state::begins(body, v, inner, s)
}

// Argument k has its value, which goes into its slot, and the next one begins.
pub fn argument(
    table: &[u32],
    work: &mut [u32],
    out: &mut [u8],
    v: Value,
    node: usize,
    spot: Spot,
    s: Tally,
) -> Next
    requires { Any (λ q. Resumes q table.now work.old out.old v node ARGUMENT spot s) }
    ensures { Prints (λ q. Resumes q table.now work.old out.old v
        node ARGUMENT spot s) table.now work.new out.new
        (3 * s.units + spot.height + 3) result }
{
    let height = spot.height;
    let mark = frames::mark(work, height);
    let row = mark / NUMBERS;
    let k = mark % NUMBERS;
    let next = rows::link(table, row, rows::NEXT);
    if next == 0 {
        return last_argument(table, work, out, v, node, k, spot, s);
    }
    let at = spot.base + spot.size + k;
    slots::put(work, SLOTS_AT, at, state::NAMELESS, v);
    pass(table, work, node, next, k + 1, v, spot, s)
}

// All arguments are worked out: the function is entered. `putchar` has no body, and its one argument is printed. With
// its bounds a `for` goes on.
fn last_argument(
    table: &[u32],
    work: &mut [u32],
    out: &mut [u8],
    v: Value,
    node: usize,
    k: usize,
    spot: Spot,
    s: Tally,
) -> Next
    requires { Any (λ q. Resumes q table.now work.old out.old v node ARGUMENT spot s)
        × LastOf table.now work.old spot.height k }
    ensures { Prints (λ q. Resumes q table.now work.old out.old v
        node ARGUMENT spot s) table.now work.new out.new
        (3 * s.units + spot.height + 3) result }
{
    let kind = rows::word(table, node, rows::KIND);
    if rows::counts(kind) {
        return loops::bounded(table, work, v, node, k, spot, s);
    }
    match callee(table, node) {
        None => print(table, out, v, node, spot, s),
        Some(head) => {
            let at = spot.base + spot.size + k;
            slots::put(work, SLOTS_AT, at, state::NAMELESS, v);
            enter(table, work, head, node, v, spot, s)
        }
    }
}

fn print(table: &[u32], out: &mut [u8], v: Value, node: usize, spot: Spot, s: Tally) -> Next
    requires { (TABLE ≤ length table.now) × (node < NODES) × (s.printed ≤ length out.old) }
    ensures { Printing (row_word table.now node OWN) v out.old out.new
        spot s result }
{
    let place = rows::word(table, node, rows::OWN);
    let r = output::put(out, v, s);
    match r {
        Ok(x) => {
            let t = output::printed(out, s);
            state::gives(x, spot, t)
        }
        Err(why) => state::halts(why, place, v, spot, s),
    }
}
