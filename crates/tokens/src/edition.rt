// Editions of the language: by which words, marks and points a text is split.
ghost use Rattle.tokens.specs.Editions.{Names};

#[derive(Clone, Copy)]
pub enum Edition {
    One,
    // Counted loops: `for`, `by`, `..` and `..=`.
    Two,
}

// The edition that a caller's number names, if it names one.
pub fn named(n: u32) -> Option<Edition>
    ensures { Names n result }
{
    match n {
        1 => Some(Edition::One),
        2 => Some(Edition::Two),
        _ => None,
    }
}
