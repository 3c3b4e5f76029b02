// The C interface of the box; include/grumpy.h says what each report has. A report that is too short is answered like
// memory that is too short, and nothing is changed. The exported functions are C's, name by name, so those that are alike
// stay so.
#![tactic(auto)]

ghost use Rattle.std.specs.Prelude.{◌≤◌, length};
ghost use Rattle.language.specs.Edition.{text_in, stored_in};
ghost use Rattle.language.specs.Writing.{Write, Store};
ghost use Rattle.grumpy_c.specs.Reports.{ToldChecked, ToldRan, ToldWrote, CheckedC, RanC, WroteC};
ghost use Rattle.grumpy_c.specs.Pairs.{ToldPairChecked, ToldPairRan, PairCheckedC, PairRanC};

mod combining;
mod profilings;
mod reports;
mod shifts;
mod states;
mod words;

use crate::reports::{
    write_pair_check_report, write_pair_run_report, write_run_report, write_three,
};
use grumpy::answers::{Checked, Ended, Ran, Wrote};
use pairs::Spot;

// The number of lent memory that is too short.
const SHORT_MEMORY: u32 = 40;

// Each answer has a written report of its own, which the contract of the function that tells it cites; what these
// functions share is in `reports`.
fn report_checked(report: &mut [u64], answer: Checked<usize>) -> u32
    requires { 3 ≤ length report.old }
    ensures { ToldChecked answer report.old report.new result }
{
    match answer {
        Ok(type_number) => {
            write_three(report, 0, 0, type_number as u64);
            0
        }
        Err(r) => {
            let number = numbers::of_refusal(r.why);
            write_three(report, number, r.place, 0);
            number
        }
    }
}

fn report_wrote(report: &mut [u64], answer: Wrote) -> u32
    requires { 3 ≤ length report.old }
    ensures { ToldWrote answer report.old report.new result }
{
    match answer {
        Ok(bytes) => {
            write_three(report, 0, 0, bytes as u64);
            0
        }
        Err(r) => {
            let number = numbers::of_refusal(r.why);
            write_three(report, number, r.place, 0);
            number
        }
    }
}

fn report_ended(report: &mut [u64], ended: Ended<usize>) -> u32
    requires { 6 ≤ length report.old }
    ensures { ToldRan (Ok ended) report.old report.new result }
{
    let (type_number, ending) = (ended.type_number, ended.ending);
    match ending.end {
        Ok(value) => {
            let bits = words::word(value);
            write_run_report(
                report,
                0,
                0,
                type_number,
                bits,
                ending.units,
                ending.printed,
            );
            0
        }
        Err(stop) => {
            let number = numbers::of_stop(stop.why);
            write_run_report(
                report,
                number,
                stop.place,
                type_number,
                0,
                ending.units,
                ending.printed,
            );
            number
        }
    }
}

fn report_ran(report: &mut [u64], answer: Ran<usize>) -> u32
    requires { 6 ≤ length report.old }
    ensures { ToldRan answer report.old report.new result }
{
    match answer {
        Ok(ended) => report_ended(report, ended),
        Err(r) => {
            let number = numbers::of_refusal(r.why);
            write_run_report(report, number, r.place, 0, 0, 0, 0);
            number
        }
    }
}

#[unsafe(no_mangle)]
pub extern "C" fn grumpy_check(
    edition: u32,
    source: &[u8],
    table: &mut [u32],
    report: &mut [u64],
) -> u32
    ensures { CheckedC (text_in edition source.now) table.old report.old
        table.new report.new result }
{
    if report.len() < 3 {
        return SHORT_MEMORY;
    }
    let answer = grumpy::check(edition, source, table);
    report_checked(report, answer)
}

#[unsafe(no_mangle)]
pub extern "C" fn grumpy_run(
    edition: u32,
    source: &[u8],
    table: &mut [u32],
    work: &mut [u32],
    out: &mut [u8],
    allowance: u64,
    report: &mut [u64],
) -> u32
    ensures { RanC (text_in edition source.now) table.old work.old
        out.old allowance report.old table.new work.new out.new
        report.new result }
{
    if report.len() < 6 {
        return SHORT_MEMORY;
    }
    let answer = grumpy::run(edition, source, table, work, out, allowance);
    report_ran(report, answer)
}

#[unsafe(no_mangle)]
pub extern "C" fn grumpy_write(
    edition: u32,
    source: &[u8],
    table: &mut [u32],
    out: &mut [u8],
    report: &mut [u64],
) -> u32
    ensures { WroteC (Write (text_in edition source.now)) table.old out.old
        report.old table.new out.new report.new result }
{
    if report.len() < 3 {
        return SHORT_MEMORY;
    }
    let answer = grumpy::write(edition, source, table, out);
    report_wrote(report, answer)
}

#[unsafe(no_mangle)]
pub extern "C" fn grumpy_store(
    edition: u32,
    source: &[u8],
    table: &mut [u32],
    out: &mut [u8],
    report: &mut [u64],
) -> u32
    ensures { WroteC (Store (text_in edition source.now)) table.old out.old
        report.old table.new out.new report.new result }
{
    if report.len() < 3 {
        return SHORT_MEMORY;
    }
    let answer = grumpy::store(edition, source, table, out);
    report_wrote(report, answer)
}

#[unsafe(no_mangle)]
pub extern "C" fn grumpy_check_stored(
    edition: u32,
    stored: &[u8],
    table: &mut [u32],
    report: &mut [u64],
) -> u32
    ensures { CheckedC (stored_in edition stored.now) table.old report.old
        table.new report.new result }
{
    if report.len() < 3 {
        return SHORT_MEMORY;
    }
    let answer = grumpy::check_stored(edition, stored, table);
    report_checked(report, answer)
}

#[unsafe(no_mangle)]
pub extern "C" fn grumpy_run_stored(
    edition: u32,
    stored: &[u8],
    table: &mut [u32],
    work: &mut [u32],
    out: &mut [u8],
    allowance: u64,
    report: &mut [u64],
) -> u32
    ensures { RanC (stored_in edition stored.now) table.old work.old
        out.old allowance report.old table.new work.new out.new
        report.new result }
{
    if report.len() < 6 {
        return SHORT_MEMORY;
    }
    let answer = grumpy::run_stored(edition, stored, table, work, out, allowance);
    report_ran(report, answer)
}

fn report_pair_checked(report: &mut [u64], answer: Checked<Spot>) -> u32
    requires { 6 ≤ length report.old }
    ensures { ToldPairChecked answer report.old report.new result }
{
    match answer {
        Ok(type_number) => {
            write_pair_check_report(report, 0, pairs::front(), type_number);
            0
        }
        Err(r) => {
            let number = numbers::of_refusal(r.why);
            write_pair_check_report(report, number, r.place, 0);
            number
        }
    }
}

fn report_pair_ended(report: &mut [u64], ended: Ended<Spot>) -> u32
    requires { 9 ≤ length report.old }
    ensures { ToldPairRan (Ok ended) report.old report.new result }
{
    let (type_number, ending) = (ended.type_number, ended.ending);
    match ending.end {
        Ok(value) => {
            let bits = words::word(value);
            write_pair_run_report(
                report,
                0,
                pairs::front(),
                type_number,
                bits,
                ending.units,
                ending.printed,
            );
            0
        }
        Err(stop) => {
            let number = numbers::of_stop(stop.why);
            write_pair_run_report(
                report,
                number,
                stop.place,
                type_number,
                0,
                ending.units,
                ending.printed,
            );
            number
        }
    }
}

fn report_pair_ran(report: &mut [u64], answer: Ran<Spot>) -> u32
    requires { 9 ≤ length report.old }
    ensures { ToldPairRan answer report.old report.new result }
{
    match answer {
        Ok(ended) => report_pair_ended(report, ended),
        Err(r) => {
            let number = numbers::of_refusal(r.why);
            write_pair_run_report(report, number, r.place, 0, 0, 0, 0);
            number
        }
    }
}

#[unsafe(no_mangle)]
pub extern "C" fn grumpy_check_pair(
    edition: u32,
    first: &[u8],
    second: &[u8],
    table: &mut [u32],
    report: &mut [u64],
) -> u32
    ensures { PairCheckedC edition first.now second.now table.old
        report.old table.new report.new result }
{
    if report.len() < 6 {
        return SHORT_MEMORY;
    }
    let answer = grumpy::check_pair(edition, first, second, table);
    report_pair_checked(report, answer)
}

#[unsafe(no_mangle)]
pub extern "C" fn grumpy_run_pair(
    edition: u32,
    first: &[u8],
    second: &[u8],
    table: &mut [u32],
    work: &mut [u32],
    out: &mut [u8],
    allowance: u64,
    report: &mut [u64],
) -> u32
    ensures { PairRanC edition first.now second.now table.old
        work.old out.old allowance report.old table.new work.new
        out.new report.new result }
{
    if report.len() < 9 {
        return SHORT_MEMORY;
    }
    let answer = grumpy::run_pair(edition, first, second, table, work, out, allowance);
    report_pair_ran(report, answer)
}
