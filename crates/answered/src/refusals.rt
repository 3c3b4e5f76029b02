// Which refusals of a sheet are told otherwise where a call stands under it.
ghost use Rattle.std.specs.Prelude.{◌≡◌};
ghost use Rattle.answered.specs.Refusals.{is_long, is_unread};

use numbers::Refusal;

// The whole is too long, the sheet and the call under it.
pub fn is_long(why: Refusal) -> bool
    ensures { result ≡ is_long why }
{
    matches!(why, Refusal::LongSource)
}

// It is no program.
pub fn is_unread(why: Refusal) -> bool
    ensures { result ≡ is_unread why }
{
    matches!(why, Refusal::NoReading)
}
