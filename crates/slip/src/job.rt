// What a task is done with: what slip reaches outside itself, what was asked for, and the edition.
ghost use Rattle.std.specs.Prelude.{◌≤◌, length, IfSome};
ghost use Rattle.desk.specs.Statuses.{Status};

use desk::{Outside, input};
use orders::asked::Asked;
use reports::Reporter;
use wording::ends;
use wording::ends::End;
use wording::limits::{Limits, unlimited};

#[derive(Drop)]
pub struct Job<'a, R> {
    pub rt: &'a R,
    pub asked: Asked,
    pub edition: u32,
}

impl<'a, R: Outside> Job<'a, R> {
    pub(crate) fn reporter(&self) -> Reporter<'a, R> {
        Reporter {
            rt: self.rt,
            asked: self.asked,
        }
    }

    // Reads the sheet that the first plain word names; nothing where it cannot be read, which was told.
    pub(crate) fn sheet<'b>(&self, bytes: &'b mut [u8]) -> Option<&'b [u8]>
        ensures { IfSome result (λ sheet. length sheet.now ≤ length bytes.old) }
    {
        input::load(self.rt, self.asked.sheet, bytes)
    }

    // Tells what came of a sheet that nothing was printed of, and answers the status.
    pub(crate) fn told(&self, sheet: &[u8], end: End) -> u32
        ensures { Status result }
    {
        self.reporter().report(sheet, b"", unlimited(), end)
    }

    // Tells what came of a run; what was printed stands first in `out`.
    pub fn ran(&self, sheet: &[u8], out: &[u8], limits: Limits, end: End) -> u32
        ensures { Status result }
    {
        let printed = input::within(ends::printed(end), out);
        self.reporter().report(sheet, printed, limits, end)
    }
}
