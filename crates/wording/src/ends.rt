// What came of a sheet, and what is asked of that.
ghost use Rattle.std.specs.Prelude.{◌≡◌};
ghost use Rattle.wording.specs.Ends.{completed_if, status_of, told_status, printed_of};

use crate::causes::Cause;
use layout::values::Value;

// How a sheet ends, case by case as it is told: the reports have a row for each, and no case hands on another's error.
#[derive(Clone, Copy)]
pub enum End {
    // It passed, and has the type with this number.
    Passed(u32),
    // The same by the profile: it can use no more than so many units.
    Counted(u32, u32),
    Value {
        type_number: u32,
        value: Value,
        units: u32,
        printed: usize,
    },
    // The cause and its place, if it has one.
    Refused(Cause, usize),
    Stopped {
        why: Cause,
        place: usize,
        type_number: u32,
        units: u32,
        printed: usize,
    },
}

// What came of a sheet that is no program with its call, where it may be one as it stands.
pub fn completed(end: End, unread: bool) -> End
    ensures { result ≡ completed_if unread end }
{
    if unread {
        end
    } else {
        End::Refused(Cause::Complete, 0)
    }
}

// The status that the program ends with: 0 where all is well, and else 1.
pub fn status(end: End) -> u32
    ensures { result ≡ status_of end }
{
    match end {
        End::Passed(_) | End::Counted(_, _) | End::Value { .. } => 0,
        End::Refused(_, _) | End::Stopped { .. } => 1,
    }
}

// The same of a shift that was told: 1 where there was a line too many.
pub fn shift_status(over: bool) -> u32
    ensures { result ≡ told_status over }
{
    u32::from(over)
}

// How many bytes the sheet printed.
pub fn printed(end: End) -> usize
    ensures { result ≡ printed_of end }
{
    match end {
        End::Value { printed, .. } | End::Stopped { printed, .. } => printed,
        End::Passed(_) | End::Counted(_, _) | End::Refused(_, _) => 0,
    }
}
