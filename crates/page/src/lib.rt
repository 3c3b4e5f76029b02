// What the program around the box does with bytes: it reads a number among its arguments, finds the line and the
// column of a place, puts text behind text so that it can be seen, writes a float or pence for who reads it, and reads
// a value that has a name on its line. Functions that put one line or one amount are alike, here and in the crates above:
// what they have in common are the methods of a page, and what differs is in the text that the contract of each names.
#![tactic(auto)]

ghost use Rattle.std.specs.Prelude.{min, length};
ghost use Rattle.page.specs.Lines.{Spotted};

mod amounts;
mod characters;
mod fields;
mod floats;
pub mod lines;
mod money;
mod padded;
mod pages;
mod text;

use crate::lines::{Spot, columns, feeds_before, line_end, line_start};
pub use amounts::up_to;
pub use characters::readable;
pub use fields::{amount, count};
pub use lines::trimmed;
pub use pages::Page;

// Where a place lies. One past the end counts as the end.
pub fn spot(source: &[u8], place: usize) -> Spot
    ensures { Spotted source.now (min place (length source.now)) result }
{
    let here = place.min(source.len());
    let before = feeds_before(source, here);
    let from = line_start(source, here);
    let to = line_end(source, here);
    let plain = readable(&source[from..to]);
    let columns = columns(&source[from..here], plain);
    Spot {
        line: before + 1,
        column: columns + 1,
        from,
        here,
        to,
        plain,
    }
}
