// An operand as the kind of value that an operator asks for, where it is of that kind. One function for each kind: they
// differ in the case that they ask for, which no parameter can name.
ghost use Rattle.std.specs.Prelude.{◌≡◌};
ghost use Rattle.language.specs.State.{as_int, as_float, as_bool, as_cell};
ghost use Rattle.layout.specs.Values.{meant};
ghost use Rattle.machine.specs.Operands.{is_true, written, OfInt};

use layout::values::Value;

pub fn int_of(v: Value) -> Option<i32>
    ensures { written result ≡ as_int (meant v) }
{
    match v {
        Value::Int(z) => Some(z),
        _ => None,
    }
}

pub fn float_of(v: Value) -> Option<f64>
    ensures { written result ≡ as_float (meant v) }
{
    match v {
        Value::Float(x) => Some(x),
        _ => None,
    }
}

pub fn flag_of(v: Value) -> Option<bool>
    ensures { written result ≡ as_bool (meant v) }
{
    match v {
        Value::Flag(b) => Some(b),
        _ => None,
    }
}

pub fn cell_of(v: Value) -> Option<u32>
    ensures { written result ≡ as_cell (meant v) }
{
    match v {
        Value::Cell(n) => Some(n),
        _ => None,
    }
}

pub fn is_true(v: Value) -> bool
    ensures { result ≡ is_true (meant v) }
{
    matches!(v, Value::Flag(true))
}

// The number that v is. A sheet that has a type asks for that of ints alone, so any answer will do where it
// is none.
pub fn int(v: Value) -> i32
    ensures { OfInt (meant v) (λ x. result ≡ x) }
{
    match v {
        Value::Int(z) => z,
        _ => 0,
    }
}
