// What came of a rate sheet with a call under it, which is a sheet of its own: the second.
ghost use Rattle.std.specs.Prelude.{◌≡◌};
ghost use Rattle.answered.specs.Called.{refused_under, passed_under, checked_under, own_place, ended_under, ran_under};
ghost use Rattle.answered.specs.Called.{profiled_under};

use crate::refusals::is_long;
use grumpy::answers::{Checked, Ended, Ending, Profiled, Ran};
use numbers::Refusal;
use pairs::Spot;
use wording::causes::Cause;
use wording::ends::End;

const INT: u32 = 1;

// The sheet that the call is, of the two.
const CALL: u32 = 2;

// It was refused: for the call under the sheet, or for the sheet.
pub fn refused(why: Refusal, spot: Spot) -> End
    ensures { result ≡ refused_under why spot }
{
    if is_long(why) || spot.sheet == CALL {
        End::Refused(Cause::Called(why), 0)
    } else {
        End::Refused(Cause::Refused(why), spot.at)
    }
}

// What a call gives has to be an int.
fn passed(type_number: u32) -> End
    ensures { result ≡ passed_under type_number }
{
    if type_number == INT {
        End::Passed(type_number)
    } else {
        End::Refused(Cause::NoWage(type_number), 0)
    }
}

// What came of its check.
pub fn of_check(answer: Checked<Spot>) -> End
    ensures { result ≡ checked_under answer }
{
    match answer {
        Ok(type_number) => passed(type_number),
        Err(r) => refused(r.why, r.place),
    }
}

// A place in the sheet, which has so many bytes. One in the call counts as the sheet's end.
fn own_place(own: usize, spot: Spot) -> usize
    ensures { result ≡ own_place own spot }
{
    if spot.sheet == CALL { own } else { spot.at }
}

// What came of a program that ended. It is as in `whole` but for the place of a stop, which may lie in the call.
fn told(own: usize, ended: Ended<Spot>) -> End
    ensures { result ≡ ended_under own ended.type_number ended.ending.units ended.ending.printed ended.ending.end }
{
    let Ending {
        end,
        units,
        printed,
    } = ended.ending;
    match end {
        Ok(value) => End::Value {
            type_number: ended.type_number,
            value,
            units,
            printed,
        },
        Err(stop) => End::Stopped {
            why: Cause::Stopped(stop.why),
            place: own_place(own, stop.place),
            type_number: ended.type_number,
            units,
            printed,
        },
    }
}

// What came of its run; the sheet has so many bytes.
pub fn of_run(own: usize, answer: Ran<Spot>) -> End
    ensures { result ≡ ran_under own answer }
{
    match answer {
        Ok(ended) => told(own, ended),
        Err(r) => refused(r.why, r.place),
    }
}

// What came of its profile.
pub fn of_profile(answer: Profiled<Spot>) -> End
    ensures { result ≡ profiled_under answer }
{
    match answer {
        Ok(costs) => End::Counted(costs.type_number, costs.count),
        Err(r) => refused(r.why, r.place),
    }
}
