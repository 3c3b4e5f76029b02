// A sheet written out again, from its source and the tokens that the table holds: each as it is spelled, one
// space between every two, and LF at the end. How long that is is known before a byte is written. `storing` has
// the sheet's other form.
#![tactic(auto)]

ghost use Rattle.std.specs.Prelude.{◌≡◌, ◌+◌, ◌-◌, ◌≤◌, ◌<◌, length};
ghost use Rattle.std.proofs.Math.Seq.{slice};
ghost use Rattle.language.specs.Sizes.{SOURCE};
ghost use Rattle.writer.specs.Texts.{Put, Front, Room, Span, Spanned, mark, with_mark};
ghost use Rattle.writer.specs.Texts.{text_long, text_from, Writable, WritesOut};

pub mod storing;

use language::SOURCE;
use layout::token;

// The output is C's, and each contract says where in it a part stands and that all else stays (`Put`): so the place goes
// along as a number. Nothing is cut there, and a type as slip's `page::Page` would have no fact of its own to keep.

// Puts the bytes of the source from one place up to another into `out`, and answers where they end there.
fn copy(source: &[u8], from: usize, to: usize, out: &mut [u8], at: usize) -> usize
    requires { Room (length source.now) from to (length out.old) at }
    ensures { Put out.old out.new (slice from to source.now) at result }
{
    // A loop: `copy_from_slice` of the library is compiled for addresses of 64 bits alone.
    let size = to - from;
    for i in 0..size {
        out[at + i] = source[from + i];
    }
    at + size
}

// The byte behind token i of so many.
fn behind(count: usize, i: usize) -> u8
    requires { i < count }
    ensures { result ≡ mark (count - (i + 1)) }
{
    if i + 1 < count { b' ' } else { b'\n' }
}

// Puts token i and the byte behind it into `out`, and answers where the next one is to go.
fn put(source: &[u8], table: &[u32], count: usize, i: usize, out: &mut [u8], at: usize) -> usize
    requires { Span (length source.now) table.now count i (length out.old) at }
    ensures { Put out.old out.new
        (with_mark source.now table.now i (count - (i + 1))) at result }
{
    let from = token::place(table, i) as usize;
    let to = token::end(table, i) as usize;
    let end = copy(source, from, to, out, at);
    out[end] = behind(count, i);
    end + 1
}

// Puts the text of all tokens into `out`.
fn put_all(source: &[u8], table: &[u32], count: usize, out: &mut [u8])
    requires { Spanned (length source.now) table.now count
        × (text_long table.now 0 count ≤ length out.old) }
    ensures { Front (text_from source.now table.now 0 count) out.old out.new }
{
    let mut at = 0;
    for i in 0..count {
        at = put(source, table, count, i, out, at);
    }
}

// How long the text of all tokens is.
fn measure(table: &[u32], count: usize) -> usize
    requires { Spanned SOURCE table.now count }
    ensures { result ≡ text_long table.now 0 count }
{
    let mut long: usize = 0;
    for i in 0..count {
        let begin = token::place(table, i) as usize;
        let end = token::end(table, i) as usize;
        let size = end - begin;
        long = long + size + 1;
    }
    long
}

// The text of the source's tokens, at the front of `out`, and how many bytes it has; none where it is longer than it may
// be, and nothing was written.
pub fn write(source: &[u8], table: &[u32], count: usize, out: &mut [u8]) -> Option<usize>
    requires { Writable source.now table.now count }
    ensures { WritesOut source.now table.now count out.old out.new result }
{
    let long = measure(table, count);
    if SOURCE < long {
        return None;
    }
    if out.len() < long {
        return None;
    }
    put_all(source, table, count, out);
    Some(long)
}
