// Signed numbers of 32 bits: each operation tests that its result is in range before it answers, and
// stops where it is not. They are five functions and no generic one, since the paper asks that of each of them.
ghost use Rattle.std.specs.Prelude.{◌≡◌, ◌+ℤ◌, ◌-ℤ◌, ◌*ℤ◌, neg_ℤ, pos};
ghost use Rattle.std.specs.Int.Signed.{quot_z};
ghost use Rattle.language.specs.Meaning.{in_range};
ghost use Rattle.machine.specs.Outcomes.{Fitted};

use layout::values::Value;
use numbers::Stop;

// The range of int.
const LOWEST: i64 = i32::MIN as i64;

const HIGHEST: i64 = i32::MAX as i64;

pub fn fits(x: i64) -> bool
    ensures { result ≡ in_range x }
{
    LOWEST <= x && x <= HIGHEST
}

pub fn add(a: i32, b: i32) -> Result<Value, Stop>
    ensures { Fitted (a +ℤ b) result }
{
    if fits(i64::from(a) + i64::from(b)) {
        Ok(Value::Int(a + b))
    } else {
        Err(Stop::OutOfRange)
    }
}

pub fn subtract(a: i32, b: i32) -> Result<Value, Stop>
    ensures { Fitted (a -ℤ b) result }
{
    if fits(i64::from(a) - i64::from(b)) {
        Ok(Value::Int(a - b))
    } else {
        Err(Stop::OutOfRange)
    }
}

pub fn multiply(a: i32, b: i32) -> Result<Value, Stop>
    ensures { Fitted (a *ℤ b) result }
{
    if fits(i64::from(a) * i64::from(b)) {
        Ok(Value::Int(a * b))
    } else {
        Err(Stop::OutOfRange)
    }
}

// The lowest int divided by -1 is out of range.
pub fn divide(a: i32, b: i32) -> Result<Value, Stop>
    requires { b ≡ pos 0 → ⊥ }
    ensures { Fitted (quot_z a b) result }
{
    if fits(i64::from(a) / i64::from(b)) {
        Ok(Value::Int(a / b))
    } else {
        Err(Stop::OutOfRange)
    }
}

pub fn negate(a: i32) -> Result<Value, Stop>
    ensures { Fitted (neg_ℤ a) result }
{
    if fits(-i64::from(a)) {
        Ok(Value::Int(-a))
    } else {
        Err(Stop::OutOfRange)
    }
}
