// A rule book that is read once and called for many jobs. The call under a book is always the same six tokens, and only
// its two numbers differ: `prepare` reads the book with a call under it, and `call` writes two words of the table, what
// the numbers are worth, and runs. One after the other they come to what `run_pair` comes to with the book and that
// call, but that a stop is told by the ordinal of its token. The table is not cleared between calls, nor after them:
// `layout::memory::clear` does that. These are for `shift` alone.
ghost use Rattle.std.specs.Prelude.{◌≡◌, ◌+◌, ◌*◌, ◌≤◌, ◌<◌, length, set};
ghost use Rattle.language.specs.Sizes.{TOKENS, TABLE};
ghost use Rattle.grumpy.specs.Calls.{Preparable, Prepares, Callable, Called};

use crate::answers::Ending;
use crate::outcomes;
use layout::Held;
use tokens::view::{Text, View};

// The book with the call of two noughts under it: the table holds it, its names and calls resolved. A book that was
// admitted is not refused.
pub fn prepare(edition: u32, book: &[u8], table: &mut [u32]) -> Held
    requires { Preparable edition book.now table.old }
    ensures { Prepares edition book.now table.old table.new result }
{
    let text = Text {
        first: book,
        second: b"pay(0,0)",
        view: View::Joined,
    };
    match sheets::examine(edition, &text, table) {
        Ok(passed) => {
            resolver::resolve(table, passed.program);
            passed.program
        }
        Err(_) => Held {
            count: 0,
            functions: 0,
            root: 0,
        },
    }
}

// What a token is worth, laid anew.
fn lay(table: &mut [u32], at: usize, worth: u32)
    requires { (TABLE ≤ length table.old) × (at < TOKENS) }
    ensures { table.new ≡ set table.old (4 * at + 3) worth }
{
    table[4 * at + 3] = worth;
}

// The call of a job.
pub fn call(
    table: &mut [u32],
    work: &mut [u32],
    out: &mut [u8],
    program: Held,
    picks: u32,
    rate: u32,
    allowance: u64,
) -> Ending<u32>
    requires { Callable table.old work.old program record { picks = picks; rate = rate } allowance }
    ensures { Called table.old work.old out.old table.new work.new
        out.new program record { picks = picks; rate = rate } allowance result }
{
    let first = program.count - 4;
    lay(table, first, picks);
    let second = program.count - 2;
    lay(table, second, rate);
    outcomes::execute(table, work, out, program, allowance as u32)
}
