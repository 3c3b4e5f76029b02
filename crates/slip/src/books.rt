// What came of the book of a shift that is refused: it was checked with a call under it.
ghost use Rattle.std.specs.Prelude.{◌≡◌};
ghost use Rattle.slip.specs.Books.{shift_end, unread_shift};

use answered::called;
use answered::refusals::is_unread;
use pairs::Spot;
use shift::Why;
use wording::causes::Cause;
use wording::ends::End;

// It is told as one with a call under it, unless it is no book, or its lines are too many.
pub fn of_shift(why: Why, spot: Spot) -> End
    ensures { result ≡ shift_end why spot }
{
    match why {
        Why::Sheet(refusal) => called::refused(refusal, spot),
        Why::NoBook => End::Refused(Cause::NoBook, 0),
        Why::ManyLines => End::Refused(Cause::ManyLines, 0),
    }
}

// Is this book, with a call under it, no program?
pub fn unread_shift(why: Why) -> bool
    ensures { result ≡ unread_shift why }
{
    match why {
        Why::Sheet(refusal) => is_unread(refusal),
        Why::NoBook | Why::ManyLines => false,
    }
}
