// What `putchar` prints.
ghost use Rattle.std.specs.Prelude.{◌≡◌, ◌≤◌, ◌<◌, length, set};
ghost use Rattle.layout.specs.Values.{meant};
ghost use Rattle.machine.specs.Outcomes.{Printed, byte_more};

use crate::state::Tally;
use crate::{operands, state};
use language::BYTE;
use layout::values::Value;
use numbers::Stop;

// A byte in the place for the next. The output is C's, and how much of it is printed is a number of the run's `Tally`.
fn store(out: &mut [u8], at: usize, byte: u8)
    requires { at < length out.old }
    ensures { out.new ≡ set out.old at byte }
{
    out[at] = byte;
}

// Prints v, a number from 0 to the largest byte, if there is room. Where it is printed, `printed` counts it.
pub fn put(out: &mut [u8], v: Value, s: Tally) -> Result<Value, Stop>
    requires { s.printed ≤ length out.old }
    ensures { Printed (meant v) out.old out.new s result }
{
    let Some(z) = operands::int_of(v) else {
        return state::stuck();
    };
    if z < 0 || BYTE < z {
        return Err(Stop::NotAByte);
    }
    if out.len() <= s.printed {
        return Err(Stop::OutputFull);
    }
    store(out, s.printed, z as u8);
    Ok(Value::Int(z))
}

// A byte more, of a buffer that has room for it.
pub fn printed(out: &[u8], s: Tally) -> Tally
    requires { s.printed < length out.now }
    ensures { result ≡ byte_more s }
{
    Tally {
        printed: s.printed + 1,
        ..s
    }
}
