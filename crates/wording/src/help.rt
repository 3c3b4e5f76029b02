// What slip says of itself: how it is asked, in short and at length, and the sizes that it keeps to.
ghost use Rattle.page.specs.Text.{Writes};
ghost use Rattle.wording.specs.Help.{command_lines, option_lines, other_lines, help_text, usage_text};
ghost use Rattle.wording.specs.Help.{sheet_sizes, run_sizes, version_text};

use crate::fields::field;
use language::{
    ACTIVE, ALLOWANCE, CELLS, FUNCTIONS, PARAMETERS, REFS, SOURCE, TABLE, TOKENS, WORK,
};
use page::Page;

fn commands(page: &mut Page)
    ensures { Writes command_lines page.old page.new }
{
    page.put(
        b"slip RATE-SHEET PICKS RATE         sets pay(PICKS,RATE) under the sheet and runs it
slip check RATE-SHEET              checks a rate sheet, with a call under it, and runs nothing
slip check --whole SHEET           checks a whole sheet as it stands
slip profile RATE-SHEET            tells how many units a rate sheet can use, if it must finish; runs nothing
slip profile --whole SHEET         the same of a whole sheet as it stands
slip run SHEET [ALLOWANCE]         runs a whole sheet as it stands, by default with 1000000 units
slip write SHEET                   writes a whole sheet out again, its tokens with one space between them
slip store SHEET                   writes the stored form of a whole sheet, lines of hexadecimal
slip check-stored FILE             checks a stored sheet
slip run-stored FILE [ALLOWANCE]   runs a stored sheet
slip shift BOOK LINES [ALLOWANCE]  pays each line of a shift by the book, and tells what they come to
slip shift --combine REPORT ..     tells what the reports of a shift's parts come to together
slip --help                        this text
slip --version                     editions and sizes
./slip --prove [WORDS]             proves the program first, and from then on uses the proved one
",
    )
}

fn options(page: &mut Page)
    ensures { Writes option_lines page.old page.new }
{
    page.put(
        b"
--edition NUMBER                   the edition of the language that the sheet is written in, 1 or 2; 1 without it
--report FILE                      writes the report for machines too, a name and a value on each line
--                                 no word behind it is an option
",
    )
}

fn others(page: &mut Page)
    ensures { Writes other_lines page.old page.new }
{
    page.put(
        b"
A sheet is a file; - is standard input. PICKS and RATE are 0 to 2147483647, ALLOWANCE is 0 to 1000000.
A stored sheet may have 131071 bytes; its places are told as lines, counted from 1.
A book is a sheet of functions, pay among them. A line of a shift is a loom in 4 digits of hexadecimal, then
picks and rate in 8 each, in capitals, and a line feed; there may be 65536 of them. ALLOWANCE is for each.
A shift may be paid in parts, cut at a line's end: --report writes the report of each, and --combine takes them.
What the sheet prints goes to standard output, the report to standard error; the report of a shift goes to
standard output, and what the book prints is dropped. Status: 0 paid or passed, 1 refused or stopped, 2 where
the words do not serve, or a file cannot be read or an output written.
",
    )
}

// What `--help` is answered.
pub fn help(page: &mut Page)
    ensures { Writes help_text page.old page.new }
{
    commands(page);
    options(page);
    others(page);
}

// What is said where the words do not serve.
pub fn usage(page: &mut Page)
    ensures { Writes usage_text page.old page.new }
{
    page.put(
        b"use: slip RATE-SHEET PICKS RATE, slip check [--whole] SHEET, slip profile [--whole] SHEET,
     slip run SHEET [ALLOWANCE], slip write SHEET, slip store SHEET, slip check-stored FILE,
     slip run-stored FILE [ALLOWANCE], slip shift BOOK LINES [ALLOWANCE], slip shift --combine REPORT ..
",
    );
}

// How many bytes a sheet may print.
const OUTPUT: u64 = 65536;

// Sizes of a sheet.
fn sheet_sizes(page: &mut Page)
    ensures { Writes sheet_sizes page.old page.new }
{
    field(page, b"source", SOURCE as u64);
    field(page, b"tokens", TOKENS as u64);
    field(page, b"functions", FUNCTIONS as u64);
    field(page, b"parameters", PARAMETERS as u64);
    field(page, b"refs", REFS as u64);
}

// Sizes of a run.
fn run_sizes(page: &mut Page)
    ensures { Writes run_sizes page.old page.new }
{
    field(page, b"allowance", ALLOWANCE);
    field(page, b"active", ACTIVE as u64);
    field(page, b"cells", CELLS as u64);
    field(page, b"table", TABLE as u64);
    field(page, b"work", WORK as u64);
    field(page, b"output", OUTPUT);
}

// What `--version` is answered.
pub fn version(page: &mut Page)
    ensures { Writes version_text page.old page.new }
{
    page.put(b"slip of Undovilaza\neditions 1 2\n");
    sheet_sizes(page);
    run_sizes(page);
}
