// What is asked of a book before any line, in this order: memory and allowance, the book with `0` set under it,
// whether it has the function and nothing outside its functions, and whether the largest call has room.
ghost use Rattle.std.specs.Prelude.{◌≤◌, length};
ghost use Rattle.language.specs.Sizes.{TABLE};
ghost use Rattle.shift.specs.Admitting.{Asked, AskedOfText, AskedOfBook, AskedOfRoom};

use crate::{Admission, Denied, Why};
use language::{ALLOWANCE, TABLE, WORK};
use layout::memory;
use numbers::Refusal;
use outlines::{Found, Sought};
use pairs::front;

// The call with the largest numbers under the book.
fn room(edition: u32, book: &[u8], table: &mut [u32]) -> Admission
    requires { TABLE ≤ length table.old }
    ensures { AskedOfRoom edition book.now table.old result table.new }
{
    grumpy::check_pair(edition, book, b"pay(2147483647,2147483647)", table)?;
    Ok(())
}

// A book that passes: its functions, and that nothing stands outside them.
fn functions(edition: u32, book: &[u8], table: &mut [u32]) -> Admission
    requires { TABLE ≤ length table.old }
    ensures { AskedOfBook edition book.now table.old result table.new }
{
    let pay = Sought {
        name: b"pay",
        takes: &[1, 1],
        gives: 1,
    };
    match grumpy::outline(edition, book, b"0", table, &pay) {
        Ok(Found { alone, there }) => {
            if alone && there {
                return room(edition, book, table);
            }
            Err(Denied {
                why: Why::NoBook,
                spot: front(),
            })
        }
        Err(why) => Err(Denied {
            why: Why::Sheet(why),
            spot: front(),
        }),
    }
}

// The book with `0` under it.
fn text(edition: u32, book: &[u8], table: &mut [u32]) -> Admission
    requires { TABLE ≤ length table.old }
    ensures { AskedOfText edition book.now table.old result table.new }
{
    grumpy::check_pair(edition, book, b"0", table)?;
    functions(edition, book, table)
}

pub fn asked(
    edition: u32,
    book: &[u8],
    table: &mut [u32],
    work: &mut [u32],
    allowance: u64,
) -> Admission
    ensures { Asked edition book.now table.old work.old allowance result table.new
        work.new }
{
    if table.len() < TABLE || work.len() < WORK {
        return Err(Denied {
            why: Why::Sheet(Refusal::ShortMemory),
            spot: front(),
        });
    }
    memory::clear(work, 0, WORK);
    if ALLOWANCE < allowance {
        memory::clear(table, 0, TABLE);
        return Err(Denied {
            why: Why::Sheet(Refusal::LargeAllowance),
            spot: front(),
        });
    }
    text(edition, book, table)
}
