// The profile for C: number, place, type and count.
ghost use Rattle.std.specs.Prelude.{◌≤◌, length};
ghost use Rattle.grumpy_c.specs.Profilings.{PROFILE, ToldProfiled, ProfiledC};

use crate::SHORT_MEMORY;
use crate::reports::write_profile_report;
use grumpy::answers::Profiled;

// Words of the report.
const PROFILE: usize = 4;

fn report_profiled(report: &mut [u64], answer: Profiled<usize>) -> u32
    requires { PROFILE ≤ length report.old }
    ensures { ToldProfiled answer report.old report.new result }
{
    match answer {
        Ok(costs) => {
            write_profile_report(report, 0, 0, costs.type_number, costs.count);
            0
        }
        Err(r) => {
            let number = numbers::of_refusal(r.why);
            write_profile_report(report, number, r.place, 0, 0);
            number
        }
    }
}

#[unsafe(no_mangle)]
pub extern "C" fn grumpy_profile(
    edition: u32,
    source: &[u8],
    table: &mut [u32],
    report: &mut [u64],
) -> u32
    ensures { ProfiledC edition source.now table.old report.old
        table.new report.new result }
{
    if report.len() < PROFILE {
        return SHORT_MEMORY;
    }
    let answer = grumpy::profile(edition, source, table);
    report_profiled(report, answer)
}
