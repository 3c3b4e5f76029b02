// Lines of a text, and where in them a place lies.
ghost use Rattle.std.specs.Prelude.{◌≡◌, ◌+◌, ◌≤◌, length, take, drop};
ghost use Rattle.page.specs.Lines.{feeds, behind, ahead, columns_of, without_return};

use crate::characters::characters;

// The line and the column of a place, both counted from 1; the bytes from one up to another that are its
// line, the place among them, and whether they are UTF-8. Places and no parts of the text: `Spotted` tells of each.
#[derive(Clone, Copy)]
pub struct Spot {
    pub line: usize,
    pub column: usize,
    pub from: usize,
    pub here: usize,
    pub to: usize,
    pub plain: bool,
}

// How many line feeds stand before a place.
pub fn feeds_before(source: &[u8], at: usize) -> usize
    requires { at ≤ length source.now }
    ensures { result ≡ feeds (take at source.now) }
{
    let mut count = 0;
    for i in 0..at {
        if source[i] == b'\n' {
            count += 1;
        }
    }
    count
}

// Where the line of a place begins.
pub fn line_start(source: &[u8], at: usize) -> usize
    requires { at ≤ length source.now }
    ensures { result + behind (take at source.now) ≡ at }
{
    pairs::begin_of(source, at)
}

// Where the line of a place ends: at its line feed, or with the text.
pub fn line_end(source: &[u8], at: usize) -> usize
    requires { at ≤ length source.now }
    ensures { result ≡ at + ahead (drop at source.now) }
{
    pairs::end_of(source, at)
}

// How many columns these bytes take: one for each character where the line is UTF-8, and else for each byte.
pub fn columns(bytes: &[u8], plain: bool) -> usize
    ensures { result ≡ columns_of plain bytes.now }
{
    if plain {
        return characters(bytes);
    }
    bytes.len()
}

// A line as it is shown: without a carriage return at its end.
pub fn trimmed(line: &[u8]) -> &[u8]
    ensures { result.now ≡ without_return line.now }
{
    let n = line.len();
    if 0 < n && line[n - 1] == b'\r' {
        return &line[..n - 1];
    }
    line
}
