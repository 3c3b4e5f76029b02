// Two sheets that are read as one: which of them holds a place of the joined text, and the line around it, as
// a part of that very sheet. Nothing is copied.
#![tactic(auto)]

ghost use Rattle.std.specs.Prelude.{◌≡◌, ◌≤◌, length};
ghost use Rattle.language.specs.Pairs.{line_begin, line_end, in_sheet, place_of};
ghost use Rattle.language.specs.Pairs as Pairs;
ghost use Rattle.pairs.specs.Spots.{meant, Cut, Shows};

// A sheet, 1 or 2, a byte of it, and the part that is shown: from its first byte up to its end.
#[derive(Clone, Copy)]
pub struct Spot {
    pub sheet: u32,
    pub at: usize,
    pub begin: usize,
    pub end: usize,
}

// What is told for want of a place.
pub fn front() -> Spot
    ensures { meant result ≡ Pairs.front }
{
    Spot {
        sheet: 1,
        at: 0,
        begin: 0,
        end: 0,
    }
}

// Where the line of a byte begins.
pub fn begin_of(sheet: &[u8], at: usize) -> usize
    requires { at ≤ length sheet.now }
    ensures { result ≡ line_begin sheet.now at }
{
    for i in (0..at).rev() {
        if sheet[i] == b'\n' {
            return i + 1;
        }
    }
    0
}

// Where it ends: at its LF, which does not belong to it, or with the sheet.
pub fn end_of(sheet: &[u8], at: usize) -> usize
    requires { at ≤ length sheet.now }
    ensures { result ≡ line_end sheet.now at }
{
    for j in at..sheet.len() {
        if sheet[j] == b'\n' {
            return j;
        }
    }
    sheet.len()
}

// A byte of the sheet with this number.
fn of_sheet(number: u32, sheet: &[u8], at: usize) -> Spot
    ensures { meant result ≡ in_sheet number sheet.now at }
{
    let (begin, end) = if at < sheet.len() {
        (begin_of(sheet, at), end_of(sheet, at))
    } else {
        (at, at)
    };
    Spot {
        sheet: number,
        at,
        begin,
        end,
    }
}

// A byte of the joined text. The LF between the sheets counts for the end of the first.
pub fn spot_at(first: &[u8], second: &[u8], at: usize) -> Spot
    ensures { meant result ≡ place_of first.now second.now at }
{
    let size = first.len();
    if at <= size {
        return of_sheet(1, first, at);
    }
    let behind = at - size - 1;
    of_sheet(2, second, behind)
}

// A part of a sheet, where there is one.
fn part(sheet: &[u8], begin: usize, end: usize) -> &[u8]
    ensures { Cut sheet.entry begin end result }
{
    // `get(begin..end)` answers the same bytes, but does not promise where they lie, as `Cut` does.
    if begin <= end && end <= sheet.len() {
        &sheet[begin..end]
    } else {
        &sheet[..0]
    }
}

// The line that a spot shows.
pub fn line<'a>(first: &'a [u8], second: &'a [u8], spot: Spot) -> &'a [u8]
    ensures { Shows first.entry second.entry spot result }
{
    let sheet = if spot.sheet == 2 { second } else { first };
    part(sheet, spot.begin, spot.end)
}
