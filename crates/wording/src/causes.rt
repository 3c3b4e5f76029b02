// Why a sheet does not pay: its number, and whether it has a place in the sheet.
ghost use Rattle.std.specs.Prelude.{◌≡◌};
ghost use Rattle.wording.specs.Causes.{refusal_placed, cause_number, cause_placed};

use numbers::{Refusal, Stop};

// The cases are those of what can be told, each with a line of words of its own.
#[derive(Clone, Copy)]
pub enum Cause {
    // The box refuses the sheet.
    Refused(Refusal),
    // It refuses the call that was set under the sheet.
    Called(Refusal),
    // It stops the run.
    Stopped(Stop),
    // The sheet is whole already, so that no call can be set under it.
    Complete,
    // What the call gives is no int, but of the type with this number.
    NoWage(u32),
    // The book of a shift is none.
    NoBook,
    // The shift has a line too many.
    ManyLines,
}

// Its number; 0 where the box has none for it, as the definition `cause_number` and the tables that go by it say.
pub fn number(why: Cause) -> u32
    ensures { result ≡ cause_number why }
{
    match why {
        Cause::Refused(refusal) | Cause::Called(refusal) => numbers::of_refusal(refusal),
        Cause::Stopped(stop) => numbers::of_stop(stop),
        Cause::Complete => numbers::of_refusal(Refusal::NoReading),
        Cause::NoWage(_) => 0,
        Cause::NoBook => 47,
        Cause::ManyLines => 46,
    }
}

fn has_place(refusal: Refusal) -> bool
    ensures { result ≡ refusal_placed refusal }
{
    match refusal {
        Refusal::Text(_)
        | Refusal::NoReading
        | Refusal::Types(_)
        | Refusal::NotHexadecimal
        | Refusal::WrongCount
        | Refusal::NotOneToken
        | Refusal::EndlessNode => true,
        Refusal::ShortMemory
        | Refusal::LargeAllowance
        | Refusal::NoEdition
        | Refusal::LongSource
        | Refusal::LongText
        | Refusal::ManyUnits => false,
    }
}

// Has it a place in the sheet? A call that was set under it is none for who wrote the sheet.
pub fn is_placed(why: Cause) -> bool
    ensures { result ≡ cause_placed why }
{
    match why {
        Cause::Refused(refusal) => has_place(refusal),
        Cause::Stopped(_) => true,
        Cause::Called(_) | Cause::Complete | Cause::NoWage(_) | Cause::NoBook | Cause::ManyLines =>
            { false }
    }
}
