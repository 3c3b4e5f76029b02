// The state of a shift as words that the caller keeps, and back from them. Whatever stands in the words, there is
// some state that they are read as.
ghost use Rattle.std.specs.Prelude.{◌≡◌, ◌≤◌, length};
ghost use Rattle.grumpy_c.specs.Words.{narrowed};
ghost use Rattle.grumpy_c.specs.States.{STATE, part_in, sums_in, state_in, Holds};

use crate::words;
use shift::State;
use tally::lines::Part;
use tally::sums::Sums;

// Words of a state.
pub const STATE: usize = 21;

pub fn write_state(words: &mut [u64], state: State)
    requires { STATE ≤ length words.old }
    ensures { Holds words.old state words.new }
{
    let part = state.part;
    let sums = state.sums;
    let before = [
        state.allowance,
        u64::from(state.over),
        part.at as u64,
        part.picks,
        part.rate,
        u64::from(part.bad),
        sums.lines as u64,
        sums.bad as u64,
    ];
    let behind = [
        sums.paid as u64,
        sums.sum.cast_unsigned(),
        sums.least.cast_unsigned(),
        sums.largest.cast_unsigned(),
    ];
    words::put_around(words, &before, sums.stops, &behind);
}

// A number of 32 bits; a larger one, which nobody has written, is read as 0.
fn narrow(w: u64) -> u32
    ensures { result ≡ narrowed w }
{
    words::count(w, 0)
}

fn read_part(words: &[u64]) -> Part
    requires { STATE ≤ length words.now }
    ensures { result ≡ part_in words.now }
{
    Part {
        at: narrow(words[2]),
        picks: words[3],
        rate: words[4],
        bad: 0 < words[5],
    }
}

fn read_sums(words: &[u64]) -> Sums
    requires { STATE ≤ length words.now }
    ensures { result ≡ sums_in words.now }
{
    Sums {
        lines: narrow(words[6]),
        bad: narrow(words[7]),
        stops: words::counts(words, 8, 0),
        paid: narrow(words[17]),
        sum: words[18].cast_signed(),
        least: words[19].cast_signed(),
        largest: words[20].cast_signed(),
    }
}

pub fn read_state(words: &[u64]) -> State
    requires { STATE ≤ length words.now }
    ensures { result ≡ state_in words.now }
{
    State {
        allowance: words[0],
        part: read_part(words),
        sums: read_sums(words),
        over: 0 < words[1],
    }
}
