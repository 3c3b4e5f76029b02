// What comes of a sheet that was examined.
ghost use Rattle.std.specs.Prelude.{MatchResult, ◌≡◌, ◌≤◌, length};
ghost use Rattle.language.specs.Sizes.{TOKENS, TABLE, WORK};
ghost use Rattle.layout.specs.Table.{zeros};
ghost use Rattle.runner.specs.Contract.{Loaded};
ghost use Rattle.sheets.specs.Sources.{place_of};
ghost use Rattle.grumpy.specs.Outcomes.{Executed, ran_of, Runnable, Answered};

use crate::answers::{Ended, Ending, Ran};
use language::WORK;
use layout::{Held, memory};
use sheets::{Refused, Source, Verdict};

// Runs the program that the table holds.
pub fn execute(
    table: &[u32],
    work: &mut [u32],
    out: &mut [u8],
    program: Held,
    allowance: u32,
) -> Ending<u32>
    requires { Loaded table.now work.old program allowance }
    ensures { Executed table.now work.old out.old work.new
        out.new program allowance result }
{
    let done = runner::run(table, work, out, program, allowance);
    let used = allowance - done.spent.left;
    // Told apart, so that a wrong value is a line of its own (`must-fail/answers_0_to_all`).
    let end = match done.result {
        Ok(value) => Ok(value),
        Err(stop) => Err(stop),
    };
    Ending {
        end,
        units: used,
        printed: done.spent.printed,
    }
}

// Where the source tells of a stop; of an end that is none, 0. The place is found before `told_at` asks for it: of a
// closure that holds the source, which borrows, no caller learns what it answers.
fn stopped_at(source: &Source, table: &[u32], count: usize, ending: Ending<u32>) -> usize
    requires { (TABLE ≤ length table.now) × (count ≤ TOKENS) }
    ensures { MatchResult ending.end (λ v. result ≡ 0)
        (λ s. result ≡ place_of source.now table.now count s.place) }
{
    match ending.end {
        Ok(_) => 0,
        Err(stop) => sheets::place_in(source, table, count, stop.place),
    }
}

// The answer for a program of this type that ended so, in a source whose tokens the table holds.
fn answer(
    source: &Source,
    table: &[u32],
    count: usize,
    type_number: u32,
    ending: Ending<u32>,
) -> Ran<usize>
    requires { (TABLE ≤ length table.now) × (count ≤ TOKENS) }
    ensures { result ≡ ran_of source.now table.now count type_number ending }
{
    let place = stopped_at(source, table, count, ending);
    let ending = ending.told_at(move |_| place);
    Ok(Ended {
        type_number,
        ending,
    })
}

// A sheet that is not run: work memory is cleared, the output stays.
fn refuse(work: &mut [u32], out: &mut [u8], refused: Refused<usize>) -> Ran<usize>
    requires { WORK ≤ length work.old }
    ensures value { result ≡ Err refused }
    ensures work_after { work.new ≡ zeros work.old 0 WORK }
    ensures out_unchanged { out.new ≡ out.old }
{
    memory::clear(work, 0, WORK);
    Err(refused)
}

// What comes of a sheet that was examined: its names and calls are resolved and it runs, or it is refused.
pub fn run_or_refuse(
    source: &Source,
    table: &mut [u32],
    work: &mut [u32],
    out: &mut [u8],
    seen: Verdict,
    allowance: u32,
) -> Ran<usize>
    requires { Runnable table.old work.old allowance seen }
    ensures { Answered source.now table.old table.new work.old out.old work.new out.new allowance seen result }
{
    match seen {
        Ok(passed) => {
            let program = passed.program;
            resolver::resolve(table, program);
            let ending = execute(table, work, out, program, allowance);
            answer(source, table, program.count, passed.type_number, ending)
        }
        Err(refused) => refuse(work, out, refused),
    }
}
