// Comments within comments.
ghost use Rattle.std.specs.Prelude.{◌<◌, length};
ghost use Rattle.language.specs.Text.{Opens};
ghost use Rattle.tokens.specs.Found.{IsPair, IsClose};
ghost use Rattle.tokens.specs.Shown.{text_of};

use crate::view::Text;

// Three answers of one kind, all told by name: an option of two of them is no plainer.
#[derive(Clone, Copy)]
pub enum Pair {
    Opens,
    Closes,
    Neither,
}

// Whether `/*` or `*/` stands at a place.
pub fn pair_at(text: &Text, at: usize) -> Pair
    requires { at < length (text_of text.now) }
    ensures { IsPair (text_of text.now) at result }
{
    match text.byte(at) {
        b'/' if text.byte(at + 1) == b'*' => Pair::Opens,
        b'*' if text.byte(at + 1) == b'/' => Pair::Closes,
        _ => Pair::Neither,
    }
}

// Where the comment that opens at a place ends, if it does. Each mark takes its two bytes, so the inside begins
// behind both bytes of `/*`, and `/*/` is not closed.
pub fn comment_end(text: &Text, at: usize) -> Option<usize>
    requires { Opens (text_of text.now) at }
    ensures { IsClose (text_of text.now) at result }
{
    let size = text.len();
    // It goes on as long as comments are open, two bytes at each mark: no step of an index.
    let mut depth: usize = 1;
    let mut i = at + 2;
    while 0 < depth {
        if size <= i {
            return None;
        }
        match pair_at(text, i) {
            Pair::Opens => {
                depth += 1;
                i += 2;
            }
            Pair::Closes => {
                depth -= 1;
                i += 2;
            }
            Pair::Neither => {
                i += 1;
            }
        }
    }
    Some(i)
}
