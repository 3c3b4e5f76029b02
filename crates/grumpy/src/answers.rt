// What the services answer. `specs/Reports.antt` gives the paper's numbers for each case. A place is a byte or a line
// of one sheet; of two sheets it is a spot, which names the sheet and the line.
ghost use Rattle.grumpy.specs.Outcomes.{EndsAt};

use layout::values::Value;
use numbers::{Located, Stop};
use sheets::Refused;

// A type's number, or a refusal.
pub type Checked<P> = Result<u32, Refused<P>>;

// How many bytes were written, or a refusal.
pub type Wrote = Result<usize, Refused<usize>>;

// The number of the sheet's type, and how many units it can use.
#[derive(Clone, Copy)]
pub struct Costs {
    pub type_number: u32,
    pub count: u32,
}

pub type Profiled<P> = Result<Costs, Refused<P>>;

// How a program ends: a value, or a stop and where it is told; with the units used and the bytes printed.
#[derive(Clone, Copy)]
pub struct Ending<P> {
    pub end: Result<Value, Located<Stop, P>>,
    pub units: u32,
    pub printed: usize,
}

// The end of a program whose type has this number.
#[derive(Clone, Copy)]
pub struct Ended<P> {
    pub type_number: u32,
    pub ending: Ending<P>,
}

pub type Ran<P> = Result<Ended<P>, Refused<P>>;

impl<P> Ending<P> {
    // A stop told at another place.
    pub(crate) fn told_at<Q, F: FnOnce(P) -> Q>(self, place: F) -> Ending<Q>
        requires { F.IsAlwaysCallable place }
        ensures { EndsAt (F.post place) self result }
    {
        Ending {
            end: self.end.map_err(|stop| Located {
                why: stop.why,
                place: place(stop.place),
            }),
            units: self.units,
            printed: self.printed,
        }
    }
}
