// The lines of a stored sheet, and its count.
ghost use Rattle.std.specs.Prelude.{◌≤◌, length};
ghost use Rattle.stored.specs.Lines.{IsLine, IsCount};

use tokens::bytes::Capital;
use tokens::view::{Text, View};

// Where the line that begins at a place ends, by its LF, if it holds two digits for each byte.
pub fn line_at(stored: &[u8], at: usize) -> Option<usize>
    requires { at ≤ length stored.now }
    ensures { IsLine stored.now at result }
{
    let text = Text {
        first: stored,
        second: stored,
        view: View::Plain,
    };
    let end = text.run_end(at, &Capital);
    if end == at || (end - at) % 2 != 0 || text.byte(end) != b'\n' {
        return None;
    }
    Some(end)
}

// The count that the first line tells, by four digits.
pub fn count_of(stored: &[u8]) -> Option<usize>
    ensures { IsCount stored.now result }
{
    if line_at(stored, 0)? != 4 {
        return None;
    }
    let text = Text {
        first: stored,
        second: stored,
        view: View::Line { from: 0, to: 4 },
    };
    Some(usize::from(text.byte(0)) * 256 + usize::from(text.byte(1)))
}
