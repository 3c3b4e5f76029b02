// The profile of a sheet: of one that was examined, and of either kind of source.
ghost use Rattle.std.specs.Prelude.{◌≡◌, ◌≤◌, length};
ghost use Rattle.language.specs.Profile.{Profile};
ghost use Rattle.language.specs.Sizes.{TOKENS, TABLE};
ghost use Rattle.sheets.specs.Sources.{origin_of};
ghost use Rattle.grumpy.specs.Profilings.{profiled_of, Payable, Profiling};
ghost use Rattle.grumpy.specs.Reports.{profiled_report};

use crate::answers::{Costs, Profiled};
use language::TABLE;
use layout::memory;
use numbers::Refusal;
use profiles::Uncounted;
use sheets::{Refused, Source, Verdict, nowhere};

// The answer for a program of this type, in a source whose tokens the table holds.
fn answer(
    source: &Source,
    table: &[u32],
    count: usize,
    type_number: u32,
    counted: Result<u32, Uncounted>,
) -> Profiled<usize>
    requires { (TABLE ≤ length table.now) × (count ≤ TOKENS) }
    ensures { result ≡ profiled_of source.now table.now count type_number counted }
{
    match counted {
        Err(Uncounted::EndlessNode(at)) => {
            let place = sheets::place_in(source, table, count, at);
            Err(Refused {
                why: Refusal::EndlessNode,
                place,
            })
        }
        Err(Uncounted::ManyUnits) => Err(nowhere(Refusal::ManyUnits)),
        Ok(count) => Ok(Costs { type_number, count }),
    }
}

// What comes of a sheet that was examined: it is counted, or it is refused.
fn profile_or_refuse(source: &Source, table: &mut [u32], seen: Verdict) -> Profiled<usize>
    requires { Payable table.old seen }
    ensures { Profiling source.now table.old table.new seen result }
{
    let passed = seen?;
    let program = passed.program;
    let counted = profiles::profile(table, program);
    answer(source, table, program.count, passed.type_number, counted)
}

// What profile answers for either kind of source.
pub fn profile_source(edition: u32, source: &Source, table: &mut [u32]) -> Profiled<usize>
    ensures { Profile (origin_of source.now edition) table.old (profiled_report result)
        table.new }
{
    if table.len() < TABLE {
        return Err(nowhere(Refusal::ShortMemory));
    }
    let seen = sheets::examine_source(edition, source, table);
    let answer = profile_or_refuse(source, table, seen);
    memory::clear(table, 0, TABLE);
    answer
}
