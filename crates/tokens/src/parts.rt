// Parts of a text: a name, say, or the digits of a line.
ghost use Rattle.std.specs.Prelude.{◌≡◌, ◌≤◌, length, IfSome};
ghost use Rattle.std.proofs.Math.Seq.{slice};
ghost use Rattle.language.specs.Pairs.{joined};
ghost use Rattle.language.specs.Tokens.{same};
ghost use Rattle.tokens.specs.Forks.{letter_at};
ghost use Rattle.tokens.specs.Parts.{part_of};

use crate::view::{Part, View};

// The bytes of two sheets from one place up to another, where they all lie in one of the two.
fn in_one<'a>(first: &'a [u8], second: &'a [u8], from: usize, to: usize) -> Option<&'a [u8]>
    requires { (from ≤ to) × (to ≤ length (joined first.now second.now)) }
    ensures { IfSome result (λ bytes. bytes.now ≡ slice from to (joined first.now second.now)) }
{
    let size = first.len();
    if to <= size {
        return Some(&first[from..to]);
    }
    if size < from {
        return Some(&second[from - size - 1..to - size - 1]);
    }
    None
}

impl<'a> Part<'a> {
    pub(crate) fn len(&self) -> usize
        ensures { result ≡ length (part_of self.now) }
    {
        self.to - self.from
    }

    // Its bytes, where they lie one behind the other in a sheet.
    pub(crate) fn bytes(&self) -> Option<&'a [u8]>
        ensures { IfSome result (λ bytes. bytes.now ≡ part_of self.now) }
    {
        let text = self.text;
        match text.view {
            View::Plain => Some(&text.first[self.from..self.to]),
            View::Joined => in_one(text.first, text.second, self.from, self.to),
            View::Line { .. } => None,
        }
    }

    // One more than a byte of the part; 0 past its last.
    pub(crate) fn letter(&self, i: usize) -> u32
        ensures { (result ≡ letter_at (part_of self.now) i) × (result ≤ 256) }
    {
        if self.to - self.from <= i {
            return 0;
        }
        u32::from(self.text.byte(self.from + i)) + 1
    }

    // Do its bytes spell this?
    pub fn spells(&self, bytes: &[u8]) -> bool
        ensures { result ≡ same bytes.now (part_of self.now) }
    {
        bytes.len() == self.to - self.from && self.text.stands_at(self.from, bytes)
    }
}
