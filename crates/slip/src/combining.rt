// The reports of the parts of a shift, each written by a `slip shift`, told together.
ghost use Rattle.std.specs.Prelude.{IfSome};
ghost use Rattle.desk.specs.Statuses.{Status};

use crate::job::Job;
use desk::{Outside, arguments, input};
use orders::asked::Asked;
use records::readings;
use shift::Finished;
use tally::sums;

// Reads the report that this word names, and tells it with those before it; nothing where it cannot be read or is none,
// which was told. No report has as many bytes as there is room for, and a part of a file is not read as one.
fn add(rt: &impl Outside, word: usize, all: Finished) -> Option<Finished> {
    let mut room = io::large_buffer();
    let most = room.len();
    let bytes = input::load(rt, Some(word), &mut room)?;
    if bytes.len() < most {
        if let Ok(reading) = readings::read(bytes) {
            let part = Finished {
                told: Ok(reading.over),
                sums: reading.sums,
            };
            return Some(shift::combine(all, part));
        }
    }
    input::no_report(rt, word);
    None
}

// No lines, to which the first report is added.
fn none() -> Finished {
    Finished {
        told: Ok(false),
        sums: sums::none(),
    }
}

// What all reports come to; nothing where one could not be read, which was told. It goes through the words again: there
// may be more reports than were kept of them.
fn summed(rt: &impl Outside) -> Option<Finished> {
    let mut asked = Asked::nothing();
    let mut all = none();
    for i in 1..arguments::count(rt) {
        let word = arguments::meaning(rt, i);
        if asked.is_plain(word) {
            all = add(rt, i, all)?;
        }
        asked = asked.take(word, i);
    }
    Some(all)
}

impl<R: Outside> Job<'_, R> {
    // That a part is refused otherwise than for its lines does not come: such a report has no sums, and is not read.
    pub fn combine(&self) -> Option<u32>
        ensures { IfSome result Status }
    {
        let all = summed(self.rt)?;
        match all.told {
            Ok(over) => Some(self.reporter().combined(over, all.sums)),
            Err(_) => None,
        }
    }
}
