// The typing rules: what a node asks of its children's types, and what is in sight of it.
#![tactic(auto)]

pub mod operators;
pub mod sight;

ghost use Rattle.std.specs.Prelude.{◌≡◌, true, false, MatchResult};

use numbers::{Located, Reason};

// Why there is no type, and the ordinal of the token that this is told at.
pub type Fault = Located<Reason, u32>;

// Goes on where the statement holds, and else tells why it has to.
pub fn need(holds: bool, reason: Reason, at: u32) -> Result<(), Fault>
    ensures { MatchResult result (λ _. holds ≡ true)
        (λ e. (holds ≡ false) × (e ≡ record { why = reason; place = at })) }
{
    if holds {
        Ok(())
    } else {
        Err(Fault {
            why: reason,
            place: at,
        })
    }
}
