// A name and a value on each line, as the report for machines has them.
ghost use Rattle.std.specs.Prelude.{◌≡◌, ◌≤◌, ◌&&◌, MatchOption, length, drop};
ghost use Rattle.std.proofs.Math.Option.{none, some};
ghost use Rattle.page.specs.Fields.{starts_with, value_named, count_in, amount_named};

use crate::amounts::{signed, up_to};
use crate::lines::line_end;

// A name stands there, and a line begins.
fn is_here(text: &[u8], at: usize, name: &[u8], fresh: bool) -> bool
    requires { at ≤ length text.now }
    ensures { result ≡ (fresh && starts_with name.now (drop at text.now)) }
{
    fresh && text[at..].starts_with(name)
}

// The value of the first line that begins with a name. The blank behind it is part of the name here.
fn find<'a>(text: &'a [u8], name: &[u8]) -> Option<&'a [u8]>
    ensures { MatchOption result (value_named name.now text.now ≡ none)
        (λ v. value_named name.now text.now ≡ some v.now) }
{
    let mut fresh = true;
    for i in 0..text.len() {
        if is_here(text, i, name, fresh) {
            let from = i + name.len();
            return Some(&text[from..line_end(text, from)]);
        }
        fresh = text[i] == b'\n';
    }
    None
}

// A value that is a number up to a limit.
pub fn count(text: &[u8], name: &[u8], most: u32) -> Option<u32>
    ensures { result ≡ count_in most name.now text.now }
{
    up_to(find(text, name)?, most)
}

// A value that is a number with or without a sign.
pub fn amount(text: &[u8], name: &[u8]) -> Option<i64>
    ensures { result ≡ amount_named name.now text.now }
{
    signed(find(text, name)?)
}
