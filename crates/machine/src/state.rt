// How far a run has come, and what a node gives that no program with a type has.
ghost use Rattle.std.specs.Prelude.{◌≡◌, Err, eqb};

use layout::values::Value;
use numbers::Stop;

// A run in numbers: units left, cells born so far and live now, bytes printed. The cells and the bytes
// themselves lie in lent memory.
#[derive(Clone, Copy)]
pub struct Tally {
    pub units: usize,
    pub births: usize,
    pub cells: usize,
    pub printed: usize,
}

// An operand of the wrong kind: no sheet that has a type comes here, so any answer will do.
pub fn stuck() -> Result<Value, Stop>
    ensures { result ≡ Err Stop.NoUnit }
{
    Err(Stop::NoUnit)
}

// Is no unit left?
pub fn exhausted(s: Tally) -> bool
    ensures { result ≡ eqb s.units 0 }
{
    s.units == 0
}
