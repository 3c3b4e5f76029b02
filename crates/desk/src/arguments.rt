// The words that the program is started with.
ghost use Rattle.std.specs.Prelude.{◌≤◌, length};

use crate::input;
use orders::asked::{Asked, Word};
use orders::meanings;
use std::env::FillError;
use std::rt::Env;

// How many words there are, the program's name among them.
pub fn count(rt: &impl Env) -> usize {
    for i in 0..usize::MAX {
        if let Err(FillError::NotPresent) = rt.arg(i, &mut []) {
            return i;
        }
    }
    usize::MAX
}

// A word, by what of these bytes it fills. Of one that does not fit nothing is answered, as of one that is missing.
pub fn word<'a>(rt: &impl Env, i: Option<usize>, bytes: &'a mut [u8]) -> &'a [u8]
    ensures { length result.now ≤ length bytes.old }
{
    let Some(i) = i else {
        return &[];
    };
    match rt.arg(i, bytes) {
        Ok(length) => &bytes[..length],
        Err(_) => &[],
    }
}

// Does this word fit the buffer for one?
pub(crate) fn fits(rt: &impl Env, i: usize) -> bool {
    rt.arg(i, &mut io::buffer()).is_ok()
}

// What a word means by itself.
pub fn meaning(rt: &impl Env, i: usize) -> Word {
    meanings::meaning(word(rt, Some(i), &mut io::buffer()))
}

// Takes one word more. One that does not fit the buffer is as strange as one that has no meaning.
fn step(rt: &impl Env, asked: Asked, i: usize) -> Asked {
    if fits(rt, i) {
        asked.take(meaning(rt, i), i)
    } else {
        asked.unknown(i)
    }
}

// What all of them ask for.
pub fn read(rt: &impl Env) -> Asked {
    let mut asked = Asked::nothing();
    for i in 1..count(rt) {
        asked = step(rt, asked, i);
    }
    asked
}

// Is this word there as a plain one, too? Of those there may be more than were kept.
pub fn is_plain(rt: &impl Env, other: Option<usize>) -> bool {
    let mut asked = Asked::nothing();
    for i in 1..count(rt) {
        let word = meaning(rt, i);
        if asked.is_plain(word) && input::same(rt, Some(i), other) {
            return true;
        }
        asked = asked.take(word, i);
    }
    false
}
