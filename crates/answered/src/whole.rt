// What came of a whole sheet, or of a stored one.
ghost use Rattle.std.specs.Prelude.{◌≡◌};
ghost use Rattle.answered.specs.Whole.{checked_end, ended_end, ran_end, profiled_end};

use grumpy::answers::{Checked, Ended, Ending, Profiled, Ran};
use wording::causes::Cause;
use wording::ends::End;

// What came of its check.
pub fn of_check(answer: Checked<usize>) -> End
    ensures { result ≡ checked_end answer }
{
    match answer {
        Ok(type_number) => End::Passed(type_number),
        Err(r) => End::Refused(Cause::Refused(r.why), r.place),
    }
}

// What came of a program that ended.
fn told(ended: Ended<usize>) -> End
    ensures { result ≡ ended_end ended.type_number ended.ending.units ended.ending.printed ended.ending.end }
{
    let Ending {
        end,
        units,
        printed,
    } = ended.ending;
    match end {
        Ok(value) => End::Value {
            type_number: ended.type_number,
            value,
            units,
            printed,
        },
        Err(stop) => End::Stopped {
            why: Cause::Stopped(stop.why),
            place: stop.place,
            type_number: ended.type_number,
            units,
            printed,
        },
    }
}

// What came of its run.
pub fn of_run(answer: Ran<usize>) -> End
    ensures { result ≡ ran_end answer }
{
    match answer {
        Ok(ended) => told(ended),
        Err(r) => End::Refused(Cause::Refused(r.why), r.place),
    }
}

// What came of its profile.
pub fn of_profile(answer: Profiled<usize>) -> End
    ensures { result ≡ profiled_end answer }
{
    match answer {
        Ok(costs) => End::Counted(costs.type_number, costs.count),
        Err(r) => End::Refused(Cause::Refused(r.why), r.place),
    }
}
