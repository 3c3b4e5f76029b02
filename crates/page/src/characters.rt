// Characters in a line: whether it is UTF-8 that can be shown as it is, and how many characters it has.
ghost use Rattle.std.specs.Prelude.{◌≡◌};
ghost use Rattle.page.specs.Characters.{begins, more_of, low_of, high_of, fits_next, more_next};
ghost use Rattle.page.specs.Characters.{low_next, high_next, is_readable, inner, heads};

// Does a character begin with this byte?
#[tactic(auto, unfolding(crate::specs::Characters::begins, crate::specs::Characters::in_range))]
fn is_first(b: u8) -> bool
    ensures { result ≡ begins b }
{
    matches!(b, 0..=127 | 194..=244)
}

// How many bytes of a character follow this first one.
#[tactic(auto, unfolding(crate::specs::Characters::more_of))]
fn more(b: u8) -> u8
    ensures { result ≡ more_of b }
{
    match b {
        0..=127 => 0,
        128..=223 => 1,
        224..=239 => 2,
        _ => 3,
    }
}

// The least second byte of a character that begins with this one, and the largest.
#[tactic(auto, unfolding(crate::specs::Characters::low_of))]
fn low(b: u8) -> u8
    ensures { result ≡ low_of b }
{
    match b {
        194 | 224 => 160,
        240 => 144,
        _ => 128,
    }
}

#[tactic(auto, unfolding(crate::specs::Characters::high_of))]
fn high(b: u8) -> u8
    ensures { result ≡ high_of b }
{
    match b {
        237 => 159,
        244 => 143,
        _ => 191,
    }
}

// How many bytes of a character are still due, and in which range the next of them is.
#[derive(Clone, Copy)]
struct Due {
    bytes: u8,
    least: u8,
    most: u8,
}

impl Due {
    // May this byte come next?
    #[tactic(auto, unfolding(crate::specs::Characters::fits_next, crate::specs::Characters::in_range))]
    fn takes(self, b: u8) -> bool
        ensures { result ≡ fits_next self.bytes self.least self.most b }
    {
        if self.bytes == 0 {
            return is_first(b);
        }
        self.least <= b && b <= self.most
    }

    // What is due behind it.
    fn after(self, b: u8) -> Due
        ensures bytes { result.bytes ≡ more_next self.bytes b }
        ensures least { result.least ≡ low_next self.bytes b }
        ensures most { result.most ≡ high_next self.bytes b }
    {
        if self.bytes == 0 {
            return Due {
                bytes: more(b),
                least: low(b),
                most: high(b),
            };
        }
        Due {
            bytes: self.bytes - 1,
            least: 128,
            most: 191,
        }
    }
}

// Is this UTF-8, without control characters beyond ASCII?
pub fn readable(bytes: &[u8]) -> bool
    ensures { result ≡ is_readable bytes.now }
{
    let mut due = Due {
        bytes: 0,
        least: 0,
        most: 0,
    };
    for b in bytes {
        if !due.takes(*b) {
            return false;
        }
        due = due.after(*b);
    }
    due.bytes == 0
}

// Does this byte stand inside a character?
#[tactic(auto, unfolding(crate::specs::Characters::inner, crate::specs::Characters::in_range))]
pub fn is_inner(b: u8) -> bool
    ensures { result ≡ inner b }
{
    matches!(b, 128..=191)
}

// How many characters these bytes are, where they are UTF-8.
pub fn characters(bytes: &[u8]) -> usize
    ensures { result ≡ heads bytes.now }
{
    let mut count = 0;
    for b in bytes {
        if !is_inner(*b) {
            count += 1;
        }
    }
    count
}
