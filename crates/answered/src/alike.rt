// What is said alike of a whole sheet and of one with a call under it: whatever a place is.
ghost use Rattle.std.specs.Prelude.{◌≡◌};
ghost use Rattle.answered.specs.Alike.{most_of, unread_end};

use crate::refusals::is_unread;
use grumpy::answers::{Checked, Profiled};

// What is known by a profile of the units that can be used.
pub fn known<P: Copy>(answer: Profiled<P>) -> Option<u32>
    ensures { result ≡ most_of answer }
{
    match answer {
        Ok(costs) => Some(costs.count),
        Err(_) => None,
    }
}

// Is it no program?
pub fn unread<P: Copy>(answer: Checked<P>) -> bool
    ensures { result ≡ unread_end answer }
{
    match answer {
        Ok(_) => false,
        Err(r) => is_unread(r.why),
    }
}
