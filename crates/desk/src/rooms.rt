// Memory that is lent to the box, and room for what is read and told: zeros. Each is made in one place, and known
// elsewhere by its length.
ghost use Rattle.std.specs.Prelude.{◌≡◌, length};

use language::SOURCE;

// A sheet, and one byte more: a sheet that fills it is too long.
pub const SHEET: usize = SOURCE + 1;

// Bytes of a stored sheet that are read at the most: the form of every sheet has fewer, two for each of its bytes, an
// LF for each token and the count's line.
pub const STORED: usize = 131072;

// What is told of a sheet: a line of it in which every byte takes four, the blanks under it, and a file's name.
pub const TEXT: usize = 8 * SOURCE + 40000;

pub fn bytes<const N: usize>() -> [u8; N]
    ensures { N ≡ length result }
{
    [0; N]
}

// What the box is lent: a table or room to work in.
pub fn words<const N: usize>() -> [u32; N]
    ensures { N ≡ length result }
{
    [0; N]
}
