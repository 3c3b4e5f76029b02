// Why a text is not split into tokens: one of two, of which the first alone has a place.

use numbers::Flaw;

#[derive(Clone, Copy)]
pub enum Unsplit {
    // A flaw, and the place where it stands.
    Stopped(Flaw, usize),
    // The text is longer than SOURCE, and nothing of it was looked at.
    TooLong,
}
