// The services of the box. Check reads a sheet and answers its type or a refusal; run checks it again and
// runs it; write checks it and writes it out again, and store writes its stored form; profile checks it and
// answers how many units it can use. Check and run also take a stored sheet; and two sheets, a rule book and a
// loom's, and read them as one, as profile does. All take the number of an edition first, any number, any bytes,
// any lent memory and any allowance, and tell what the table of numbers has; what they leave in lent memory follows
// from that.
#![tactic(auto)]

ghost use Rattle.std.specs.Prelude.{◌≡◌};
ghost use Rattle.language.specs.Answers.{Check, Run};
ghost use Rattle.language.specs.Edition.{text_in, stored_in, pair_in, is_known};
ghost use Rattle.language.specs.Outline.{Outline};
ghost use Rattle.language.specs.Profile.{Profile};
ghost use Rattle.language.specs.Writing.{Write, Store};
ghost use Rattle.outlines.specs.Reports.{wanted_by, outlined_report};
ghost use Rattle.pairs.specs.Spots.{Shows};
ghost use Rattle.sheets.specs.Sources.{origin_of};
ghost use Rattle.grumpy.specs.Reports.{checked_report, ran_report, wrote_report, profiled_report};
ghost use Rattle.grumpy.specs.Reports.{pair_checked_report, pair_ran_report, pair_profiled_report};

pub mod answers;
pub mod calls;
mod outcomes;
mod places;
mod profilings;
mod writings;

use crate::answers::{Checked, Profiled, Ran, Wrote};
use language::{ALLOWANCE, TABLE, WORK};
use layout::memory;
use numbers::Refusal;
use outlines::{Found, Sought};
use pairs::Spot;
use sheets::{Source, nowhere};
use tokens::edition::named;
use tokens::view::{Text, View};

// What check answers for either kind of source.
fn check_source(edition: u32, source: &Source, table: &mut [u32]) -> Checked<usize>
    ensures { Check (origin_of source.now edition) table.old (checked_report result)
        table.new }
{
    if table.len() < TABLE {
        return Err(nowhere(Refusal::ShortMemory));
    }
    let seen = sheets::examine_source(edition, source, table);
    memory::clear(table, 0, TABLE);
    let passed = seen?;
    Ok(passed.type_number)
}

pub fn check(edition: u32, source: &[u8], table: &mut [u32]) -> Checked<usize>
    ensures { Check (text_in edition source.now) table.old (checked_report result)
        table.new }
{
    let text = Text {
        first: source,
        second: source,
        view: View::Plain,
    };
    check_source(edition, &Source::Text(text), table)
}

// The same of a stored sheet; its places are lines.
pub fn check_stored(edition: u32, stored: &[u8], table: &mut [u32]) -> Checked<usize>
    ensures { Check (stored_in edition stored.now) table.old (checked_report result)
        table.new }
{
    check_source(edition, &Source::Lines(stored), table)
}

// The first sheet, one LF, then the second, without their being put together.
pub fn check_pair(edition: u32, first: &[u8], second: &[u8], table: &mut [u32]) -> Checked<Spot>
    ensures { Check (pair_in edition first.now second.now) table.old
        (pair_checked_report result) table.new }
{
    let text = Text {
        first,
        second,
        view: View::Joined,
    };
    let answer = check_source(edition, &Source::Text(text), table);
    places::checked(first, second, answer)
}

// What run answers for either kind of source. The three memories stay apart here and above, as `grumpy_run` is lent
// them: a struct of them would be built by each caller and taken apart again below.
fn run_source(
    edition: u32,
    source: &Source,
    table: &mut [u32],
    work: &mut [u32],
    out: &mut [u8],
    allowance: u64,
) -> Ran<usize>
    ensures { Run (origin_of source.now edition) table.old
        work.old out.old allowance (ran_report result) table.new work.new
        out.new }
{
    if table.len() < TABLE {
        return Err(nowhere(Refusal::ShortMemory));
    }
    if work.len() < WORK {
        return Err(nowhere(Refusal::ShortMemory));
    }
    if ALLOWANCE < allowance {
        memory::clear(table, 0, TABLE);
        memory::clear(work, 0, WORK);
        return Err(nowhere(Refusal::LargeAllowance));
    }
    let seen = sheets::examine_source(edition, source, table);
    let answer = outcomes::run_or_refuse(source, table, work, out, seen, allowance as u32);
    memory::clear(table, 0, TABLE);
    answer
}

// `source` is the whole sheet, its call set under it; `out` gets the bytes of the slip.
pub fn run(
    edition: u32,
    source: &[u8],
    table: &mut [u32],
    work: &mut [u32],
    out: &mut [u8],
    allowance: u64,
) -> Ran<usize>
    ensures { Run (text_in edition source.now) table.old work.old
        out.old allowance (ran_report result) table.new work.new out.new }
{
    let text = Text {
        first: source,
        second: source,
        view: View::Plain,
    };
    run_source(edition, &Source::Text(text), table, work, out, allowance)
}

// The same of a stored sheet.
pub fn run_stored(
    edition: u32,
    stored: &[u8],
    table: &mut [u32],
    work: &mut [u32],
    out: &mut [u8],
    allowance: u64,
) -> Ran<usize>
    ensures { Run (stored_in edition stored.now) table.old work.old
        out.old allowance (ran_report result) table.new work.new out.new }
{
    run_source(edition, &Source::Lines(stored), table, work, out, allowance)
}

// The same of two sheets: the rule book, and the loom's sheet with its call.
pub fn run_pair(
    edition: u32,
    first: &[u8],
    second: &[u8],
    table: &mut [u32],
    work: &mut [u32],
    out: &mut [u8],
    allowance: u64,
) -> Ran<Spot>
    ensures { Run (pair_in edition first.now second.now) table.old
        work.old out.old allowance (pair_ran_report result) table.new work.new
        out.new }
{
    let text = Text {
        first,
        second,
        view: View::Joined,
    };
    let answer = run_source(edition, &Source::Text(text), table, work, out, allowance);
    places::ran(first, second, answer)
}

// `out` gets the sheet's tokens, one space between every two and LF at the end.
pub fn write(edition: u32, source: &[u8], table: &mut [u32], out: &mut [u8]) -> Wrote
    ensures { Write (text_in edition source.now) table.old out.old (wrote_report result)
        table.new out.new }
{
    writings::written::<writings::WrittenOut>(edition, source, table, out)
}

// `out` gets the sheet's stored form: a line with the count of its tokens, and a line for each of them.
pub fn store(edition: u32, source: &[u8], table: &mut [u32], out: &mut [u8]) -> Wrote
    ensures { Store (text_in edition source.now) table.old out.old (wrote_report result)
        table.new out.new }
{
    writings::written::<writings::Stored>(edition, source, table, out)
}

// A pay sheet must finish: it passes, has no endless node, and cannot use too many units.
pub fn profile(edition: u32, source: &[u8], table: &mut [u32]) -> Profiled<usize>
    ensures { Profile (text_in edition source.now) table.old (profiled_report result)
        table.new }
{
    let text = Text {
        first: source,
        second: source,
        view: View::Plain,
    };
    profilings::profile_source(edition, &Source::Text(text), table)
}

// The same of two sheets.
pub fn profile_pair(edition: u32, first: &[u8], second: &[u8], table: &mut [u32]) -> Profiled<Spot>
    ensures { Profile (pair_in edition first.now second.now) table.old
        (pair_profiled_report result) table.new }
{
    let text = Text {
        first,
        second,
        view: View::Joined,
    };
    let answer = profilings::profile_source(edition, &Source::Text(text), table);
    places::profiled(first, second, answer)
}

// Whether a number names an edition.
pub fn knows(edition: u32) -> bool
    ensures { result ≡ is_known edition }
{
    named(edition).is_some()
}

// What two sheets have, without running them: whether their last expression is a number alone, and whether
// there is a function that is wanted.
pub fn outline(
    edition: u32,
    first: &[u8],
    second: &[u8],
    table: &mut [u32],
    sought: &Sought,
) -> Result<Found, Refusal>
    ensures { Outline (pair_in edition first.now second.now) (wanted_by sought.now)
        table.old (outlined_report result) table.new }
{
    outlines::outline(edition, first, second, table, sought)
}

// The line that a spot shows, as a part of its sheet.
pub fn line<'a>(first: &'a [u8], second: &'a [u8], spot: Spot) -> &'a [u8]
    ensures { Shows first.entry second.entry spot result }
{
    pairs::line(first, second, spot)
}
