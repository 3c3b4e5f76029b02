// A line of a shift, byte by byte: a loom in four digits, then picks and rate in eight each.
ghost use Rattle.std.specs.Prelude.{true, ◌≡◌, ◌<◌};
ghost use Rattle.tally.specs.Parts.{no_part, spoilt, with_digit, longer, is_begun, digit_told, job_told};

use language::LARGEST;

// How many digits of the line there were, what picks and rate are worth so far, and whether it is bad: four words of C's,
// and a line that is bad is so whatever was kept of it.
#[derive(Clone, Copy)]
pub struct Part {
    pub at: u32,
    pub picks: u64,
    pub rate: u64,
    pub bad: bool,
}

// What a good line asks to be paid.
#[derive(Clone, Copy)]
pub struct Job {
    pub picks: u32,
    pub rate: u32,
}

pub fn none() -> Part
    ensures { result ≡ no_part }
{
    Part {
        at: 0,
        picks: 0,
        rate: 0,
        bad: false,
    }
}

// What a byte is worth that is a hexadecimal digit in capitals. `tokens` tells it of stored sheets; neither crate rests on
// the other, and nothing below both knows of bytes.
#[tactic(auto, unfolding(crate::specs::Parts::digit_told, language::specs::Shift::is_capital_hex, language::specs::Text::is_digit, language::specs::Text::between, language::specs::Text::worth))]
fn worth(b: u8) -> Option<u8>
    ensures { result ≡ digit_told b }
{
    match b {
        b'0'..=b'9' => Some(b - b'0'),
        b'A'..=b'F' => Some(b - b'A' + 10),
        _ => None,
    }
}

// A line that is bad stays so.
fn spoil(p: Part) -> Part
    ensures { result ≡ spoilt p }
{
    Part { bad: true, ..p }
}

// One digit more; a number that is above the largest is so with every digit that follows.
#[tactic(auto, unfolding(crate::specs::Parts::with_digit))]
fn digit(p: Part, d: u8) -> Part
    requires { p.at < 20 }
    ensures { result ≡ with_digit p d }
{
    let at = p.at + 1;
    match p.at {
        0..4 => Part { at, ..p },
        4..12 if p.picks <= LARGEST => Part {
            at,
            picks: p.picks * 16 + u64::from(d),
            ..p
        },
        12.. if p.rate <= LARGEST => Part {
            at,
            rate: p.rate * 16 + u64::from(d),
            ..p
        },
        _ => spoil(p),
    }
}

// One byte more of a line.
#[tactic(auto, unfolding(crate::specs::Parts::longer, crate::specs::Parts::digit_told))]
pub fn more(p: Part, b: u8) -> Part
    ensures { result ≡ longer p b }
{
    if p.bad {
        return p;
    }
    match worth(b) {
        Some(d) if p.at < 20 => digit(p, d),
        _ => spoil(p),
    }
}

// There was a byte of it.
#[tactic(auto, unfolding(crate::specs::Parts::is_begun))]
pub fn begun(p: Part) -> bool
    ensures { result ≡ is_begun p }
{
    p.bad || 0 < p.at
}

// The job of a line that has ended; a bad one has none.
#[tactic(auto, unfolding(crate::specs::Parts::job_told))]
pub fn ended(p: Part) -> Option<Job>
    ensures { result ≡ job_told p }
{
    if p.bad || p.at != 20 || LARGEST < p.picks || LARGEST < p.rate {
        return None;
    }
    Some(Job {
        picks: p.picks as u32,
        rate: p.rate as u32,
    })
}
