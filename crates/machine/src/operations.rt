// What an operator does with operands that are worked out.
ghost use Rattle.std.proofs.Math.Option.{none};
ghost use Rattle.std.specs.Prelude.{◌≡◌, ◌≤◌};
ghost use Rattle.language.specs.Sizes.{ALLOWANCE};
ghost use Rattle.language.specs.Trees.{new};
ghost use Rattle.language.specs.State.{number, float, as_int};
ghost use Rattle.language.specs.Meaning.{apply_unary, apply_binary, settles};
ghost use Rattle.layout.specs.Values.{meant};
ghost use Rattle.machine.specs.Rows.{unary_of, binary_of, OnNumbers};
ghost use Rattle.machine.specs.Outcomes.{Room, Answered, Applied, Reckoned, Judged};

use crate::state::Tally;
use crate::{arithmetic, cells, operands, state};
use language::kinds;
use layout::rows::PREFIX;
use layout::values::Value;
use numbers::Stop;

const NEGATE: u32 = PREFIX + kinds::MINUS;

const NOT: u32 = PREFIX + kinds::NOT;

// Every operator of one operand but `ref`, which changes work memory.
pub fn apply_unary(op: u32, work: &[u32], v: Value, s: Tally) -> Result<Value, Stop>
    requires { Room work.now s × (unary_of op ≡ new → ⊥) }
    ensures { Answered (λ i σ. apply_unary i (unary_of op) (meant v) σ) work.now s result }
{
    match op {
        NEGATE => match operands::int_of(v) {
            Some(a) => arithmetic::negate(a),
            None => state::stuck(),
        },
        NOT => match operands::flag_of(v) {
            Some(b) => Ok(Value::Flag(!b)),
            None => state::stuck(),
        },
        _ => match operands::cell_of(v) {
            Some(n) => cells::fetch(work, n, s),
            None => state::stuck(),
        },
    }
}

// Whether the left side alone settles it, so that the right side is not begun.
pub fn settles(op: u32, v: Value) -> bool
    ensures { result ≡ settles (binary_of op) (meant v) }
{
    match (op, operands::flag_of(v)) {
        (kinds::AND, Some(b)) => !b,
        (kinds::OR, Some(b)) => b,
        _ => false,
    }
}

// An operator of two numbers.
fn reckon(op: u32, a: i32, b: i32) -> Result<Value, Stop>
    requires { OnNumbers op }
    ensures { Reckoned (λ i σ. apply_binary i (binary_of op) (number a) (number b) σ) result }
{
    match op {
        kinds::PLUS => arithmetic::add(a, b),
        kinds::MINUS => arithmetic::subtract(a, b),
        kinds::STAR => arithmetic::multiply(a, b),
        kinds::SLASH if b == 0 => Err(Stop::ZeroDivisor),
        kinds::SLASH => arithmetic::divide(a, b),
        kinds::LESS => Ok(Value::Flag(a < b)),
        _ => Ok(Value::Flag(a == b)),
    }
}

// An operator of two floats: a single operation, rounded once (R08.4), and no result of it is a stop. `==` is for
// ints (R08.5).
fn compute(op: u32, x: f64, y: f64) -> Result<Value, Stop>
    requires { OnNumbers op }
    ensures { Judged (λ i σ. apply_binary i (binary_of op) (float x) (float y) σ) result }
{
    match op {
        kinds::PLUS => Ok(Value::Float(x + y)),
        kinds::MINUS => Ok(Value::Float(x - y)),
        kinds::STAR => Ok(Value::Float(x * y)),
        kinds::SLASH => Ok(Value::Float(x / y)),
        kinds::LESS => Ok(Value::Flag(x < y)),
        _ => state::stuck(),
    }
}

// The left side is no int.
fn on_floats(op: u32, a: Value, b: Value) -> Result<Value, Stop>
    requires { OnNumbers op × (none ≡ as_int (meant a)) }
    ensures { Judged (λ i σ. apply_binary i (binary_of op) (meant a) (meant b) σ) result }
{
    match (operands::float_of(a), operands::float_of(b)) {
        (Some(x), Some(y)) => compute(op, x, y),
        _ => state::stuck(),
    }
}

pub fn apply_binary(op: u32, work: &mut [u32], a: Value, b: Value, s: Tally) -> Result<Value, Stop>
    requires { Room work.old s × (s.births ≤ ALLOWANCE) }
    ensures { Applied (λ i σ. apply_binary i (binary_of op) (meant a) (meant b) σ) work.old
        work.new s result }
{
    match op {
        kinds::BECOMES => match operands::cell_of(a) {
            Some(n) => cells::assign(work, n, b, s),
            None => state::stuck(),
        },
        kinds::AND | kinds::OR => Ok(b),
        _ => match (operands::int_of(a), operands::int_of(b)) {
            (Some(m), Some(n)) => reckon(op, m, n),
            (Some(_), None) => state::stuck(),
            (None, _) => on_floats(op, a, b),
        },
    }
}
