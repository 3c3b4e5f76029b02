// What is written of a sheet: its text, or its stored form. The two differ in what is put into the output and in what
// is told of it; how a sheet comes to be written is the same.
ghost use Rattle.language.specs.Writing as writing;
ghost use Rattle.writer.specs.Texts.{Writable};
ghost use Rattle.grumpy.specs.Writings.{Tells, Rewrote, Readable, Rewritten, Served, Lawful, answered};
ghost use Rattle.grumpy.specs.WritingLaws.{write_lawful, store_lawful};

use crate::answers::Wrote;
use language::TABLE;
use layout::memory;
use numbers::Refusal;
use sheets::{Verdict, nowhere};
use tokens::view::{Text, View};

// A way to write a sheet that passes: `put` answers how many bytes it put, or none where they have no room.
pub(crate) trait Writes {
    // What a service that writes so may tell.
    ghost tells: { Tells };

    fn put(source: &[u8], table: &[u32], count: usize, out: &mut [u8]) -> Option<usize>
        requires { Writable source.now table.now count }
        ensures { Rewrote tells source.now table.now count out.old out.new
            (answered result) };

    ghost lawful: { Lawful tells };
}

pub(crate) struct WrittenOut;

impl Writes for WrittenOut {
    ghost tells = { writing.Wrote };

    ghost lawful = { write_lawful };

    fn put(source: &[u8], table: &[u32], count: usize, out: &mut [u8]) -> Option<usize> {
        writer::write(source, table, count, out)
    }
}

pub(crate) struct Stored;

impl Writes for Stored {
    ghost tells = { writing.Stores };

    ghost lawful = { store_lawful };

    fn put(source: &[u8], table: &[u32], count: usize, out: &mut [u8]) -> Option<usize> {
        writer::storing::store(source, table, count, out)
    }
}

// What comes of a sheet that passes.
fn rewrite<W: Writes>(source: &[u8], table: &[u32], count: usize, out: &mut [u8]) -> Wrote
    requires { Writable source.now table.now count }
    ensures { Rewrote W.tells source.now table.now count out.old out.new result }
{
    W::put(source, table, count, out).ok_or(nowhere(Refusal::LongText))
}

// What comes of a sheet that was examined: it is written, or it is refused and the output stays.
fn write_or_refuse<W: Writes>(source: &[u8], table: &[u32], out: &mut [u8], seen: Verdict) -> Wrote
    requires { Readable source.now table.now seen }
    ensures { Rewritten W.tells source.now table.now out.old out.new seen result }
{
    let passed = seen?;
    rewrite::<W>(source, table, passed.program.count, out)
}

// What the services that write answer for a source.
pub(crate) fn written<W: Writes>(
    edition: u32,
    source: &[u8],
    table: &mut [u32],
    out: &mut [u8],
) -> Wrote
    ensures { Served W.tells edition source.now table.old out.old result table.new
        out.new }
{
    if table.len() < TABLE {
        return Err(nowhere(Refusal::ShortMemory));
    }
    let text = Text {
        first: source,
        second: source,
        view: View::Plain,
    };
    let seen = sheets::examine(edition, &text, table);
    let answer = write_or_refuse::<W>(source, table, out, seen);
    memory::clear(table, 0, TABLE);
    answer
}
