// The words of a report.
ghost use Rattle.std.specs.Prelude.{◌≡◌, ◌+◌, ◌≤◌, length};
ghost use Rattle.pairs.specs.Spots.{meant};
ghost use Rattle.grumpy_c.specs.Pairs.{spot_words};
ghost use Rattle.grumpy_c.specs.Profilings.{four};
ghost use Rattle.grumpy_c.specs.Reports.{three, six};

use pairs::Spot;

// Number, place, and what the service has to add.
pub fn write_three(report: &mut [u64], number: u32, place: usize, last: u64)
    requires { 3 ≤ length report.old }
    ensures { report.new ≡ three report.old number place last }
{
    report[0] = number as u64;
    report[1] = place as u64;
    report[2] = last;
}

pub fn write_run_report(
    report: &mut [u64],
    number: u32,
    place: usize,
    type_number: u32,
    value: u64,
    units: u32,
    printed: usize,
)
    requires { 6 ≤ length report.old }
    ensures { report.new ≡ six report.old number place type_number value units printed }
{
    write_three(report, number, place, type_number as u64);
    report[3] = value;
    report[4] = units as u64;
    report[5] = printed as u64;
}

pub fn write_profile_report(
    report: &mut [u64],
    number: u32,
    place: usize,
    type_number: u32,
    count: u32,
)
    requires { 4 ≤ length report.old }
    ensures { report.new ≡ four report.old number place type_number count }
{
    write_three(report, number, place, type_number as u64);
    report[3] = count as u64;
}

// The sheet, and where its line begins and ends, from word k on.
pub fn write_spot(report: &mut [u64], k: usize, spot: Spot)
    requires { k + 3 ≤ length report.old }
    ensures { report.new ≡ spot_words report.old k (meant spot) }
{
    report[k] = spot.sheet as u64;
    report[k + 1] = spot.begin as u64;
    report[k + 2] = spot.end as u64;
}

pub fn write_pair_check_report(report: &mut [u64], number: u32, spot: Spot, type_number: u32)
    requires { 6 ≤ length report.old }
    ensures { report.new ≡
        spot_words (three report.old number (meant spot).at type_number) 3 (meant spot) }
{
    write_three(report, number, spot.at, type_number as u64);
    write_spot(report, 3, spot);
}

pub fn write_pair_run_report(
    report: &mut [u64],
    number: u32,
    spot: Spot,
    type_number: u32,
    value: u64,
    units: u32,
    printed: usize,
)
    requires { 9 ≤ length report.old }
    ensures { report.new ≡ spot_words
        (six report.old number (meant spot).at type_number value units printed) 6 (meant spot) }
{
    write_run_report(report, number, spot.at, type_number, value, units, printed);
    write_spot(report, 6, spot);
}
