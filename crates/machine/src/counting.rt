// The numbers that a `for` goes through. A sheet that has a type counts by ints alone, so any answer will do
// where a value is none.
ghost use Rattle.std.specs.Prelude.{◌≡◌, option_map};
ghost use Rattle.language.specs.State.{number};
ghost use Rattle.language.specs.Meaning.{is_zero, towards, due};
ghost use Rattle.layout.specs.Values.{meant};
ghost use Rattle.machine.specs.Operands.{OfInt, before, written, stepped};

use crate::operands;
use layout::values::Value;

fn towards(from: i32, to: i32) -> i32
    ensures { result ≡ towards from to }
{
    if to < from { -1 } else { 1 }
}

// The step, where none is written.
pub fn step(from: Value, to: Value) -> Value
    ensures { OfInt (meant from) (λ x. OfInt (meant to) (λ y. meant result ≡ number (towards x y))) }
{
    let a = operands::int(from);
    let b = operands::int(to);
    Value::Int(towards(a, b))
}

// A step that leads nowhere.
pub fn still(by: Value) -> bool
    ensures { OfInt (meant by) (λ x. result ≡ is_zero x) }
{
    operands::int(by) == 0
}

// Whether z lies before the end, as the step goes.
fn before(to: i32, by: i32, z: i32) -> bool
    ensures { result ≡ before to by z }
{
    if 0 < by { z < to } else { to < z }
}

fn due(through: bool, to: i32, by: i32, z: i32) -> bool
    ensures { result ≡ due through to by z }
{
    before(to, by, z) || through && z == to
}

// Whether there is a pass for z: it lies before the end, or is the end and that is a pass too.
pub fn passes(through: bool, to: Value, by: Value, z: Value) -> bool
    ensures { OfInt (meant to) (λ x. OfInt (meant by) (λ y. OfInt (meant z) (λ n. result ≡ due through x y n))) }
{
    let a = operands::int(to);
    let b = operands::int(by);
    let c = operands::int(z);
    due(through, a, b, c)
}

// A step that leaves the range of int is no stop.
fn behind(z: i32, by: i32) -> Option<Value>
    ensures { written (option_map meant result) ≡ stepped z by }
{
    Some(Value::Int(z.checked_add(by)?))
}

// The number behind the one of a pass; past the range of int there is none.
pub fn next(z: Value, by: Value) -> Option<Value>
    ensures { OfInt (meant z) (λ n. OfInt (meant by) (λ y. written (option_map meant result) ≡ stepped n y)) }
{
    let a = operands::int(z);
    let b = operands::int(by);
    behind(a, b)
}
