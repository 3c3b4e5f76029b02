// Stored sheets, checked or run in the sheet's stead.
ghost use Rattle.std.specs.Prelude.{◌≤◌, length, IfSome};
ghost use Rattle.desk.specs.Statuses.{Status};
ghost use Rattle.grumpy.specs.Reports.{checked_report};
ghost use Rattle.language.specs.Answers.{CheckedUnder};
ghost use Rattle.language.specs.Edition.{stored_in};
ghost use Rattle.language.specs.Sizes.{BOX, TABLE};

use crate::job::Job;
use answered::whole;
use desk::rooms::STORED;
use desk::{Outside, input, output, rooms};
use grumpy::answers::Checked;
use language::{TABLE, WORK};
use wording::ends;
use wording::limits::{Limits, unlimited};

// What check answers of a stored sheet.
fn examine(edition: u32, stored: &[u8]) -> Checked<usize>
    ensures { CheckedUnder BOX (stored_in edition stored.now) TABLE (checked_report result) }
{
    grumpy::check_stored(edition, stored, &mut rooms::words::<TABLE>())
}

impl<R: Outside> Job<'_, R> {
    // Reads a stored sheet. What fills the bytes may go on behind them, and would be judged by a part of it; no sheet's
    // stored form has so many.
    fn stored<'b>(&self, bytes: &'b mut [u8; STORED]) -> Option<&'b [u8]> {
        let stored = self.sheet(bytes)?;
        if stored.len() < STORED {
            return Some(stored);
        }
        output::tell(
            self.rt,
            b"slip: the stored sheet has more than 131071 bytes, and no sheet needs so many\n",
        );
        None
    }

    pub fn check_stored(&self) -> Option<u32>
        ensures { IfSome result Status }
    {
        let mut room = rooms::bytes::<STORED>();
        let stored = self.stored(&mut room)?;
        let end = whole::of_check(examine(self.edition, stored));
        Some(self.reporter().report_stored(b"", unlimited(), end))
    }

    // What was printed stands first in `out`.
    pub fn run_stored(&self) -> Option<u32>
        ensures { IfSome result Status }
    {
        let mut room = rooms::bytes::<STORED>();
        let mut table = rooms::words::<TABLE>();
        let mut work = rooms::words::<WORK>();
        let mut out = io::large_buffer();
        let allowance = u64::from(input::allowance(self.rt, self.asked.second)?);
        let stored = self.stored(&mut room)?;
        let answer = grumpy::run_stored(
            self.edition,
            stored,
            &mut table,
            &mut work,
            &mut out,
            allowance,
        );
        let most = None;
        let limits = Limits { allowance, most };
        let end = whole::of_run(answer);
        let printed = input::within(ends::printed(end), &out);
        Some(self.reporter().report_stored(printed, limits, end))
    }
}
