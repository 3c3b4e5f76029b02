// A rate sheet: checked, counted or paid, with a call set under it, as a second sheet, as each line of a shift has its
// call.
ghost use Rattle.std.specs.Prelude.{IfSome};
ghost use Rattle.desk.specs.Statuses.{Status};
ghost use Rattle.grumpy.specs.Reports.{pair_checked_report};
ghost use Rattle.language.specs.Answers.{CheckedUnder};
ghost use Rattle.language.specs.Edition.{pair_in};
ghost use Rattle.language.specs.Sizes.{BOX, TABLE};

use crate::job::Job;
use crate::serve;
use answered::{alike, called};
use desk::rooms::SHEET;
use desk::{Outside, input, rooms};
use grumpy::answers::Checked;
use language::{ALLOWANCE, TABLE, WORK};
use orders::tasks::LARGEST;
use pairs::Spot;
use tally::calls;
use wording::ends;
use wording::ends::End;
use wording::limits::Limits;

// What check answers of a sheet with a call under it.
fn examine_called(edition: u32, sheet: &[u8], call: &[u8]) -> Checked<Spot>
    ensures { CheckedUnder BOX (pair_in edition sheet.now call.now) TABLE (pair_checked_report result) }
{
    grumpy::check_pair(edition, sheet, call, &mut rooms::words::<TABLE>())
}

// What a rate sheet with its call under it comes to; where that is no program, the sheet alone may be one.
fn judge(edition: u32, sheet: &[u8], call: &[u8]) -> End {
    let answer = examine_called(edition, sheet, call);
    let end = called::of_check(answer);
    if alike::unread(answer) {
        return ends::completed(end, alike::unread(serve::examine(edition, sheet)));
    }
    end
}

impl<R: Outside> Job<'_, R> {
    // Runs the sheet with the call under it, and reports, with what its profile says.
    fn run_called(&self, sheet: &[u8], call: &[u8]) -> u32
        ensures { Status result }
    {
        let mut table = rooms::words::<TABLE>();
        let mut work = rooms::words::<WORK>();
        let mut out = io::large_buffer();
        let allowance = ALLOWANCE;
        let answer = grumpy::run_pair(
            self.edition,
            sheet,
            call,
            &mut table,
            &mut work,
            &mut out,
            allowance,
        );
        let most = alike::known(grumpy::profile_pair(self.edition, sheet, call, &mut table));
        let end = called::of_run(sheet.len(), answer);
        self.ran(sheet, &out, Limits { allowance, most }, end)
    }

    // Where the sheet with the call under it does not pass, that is told, and the status is answered.
    fn refused(&self, sheet: &[u8], call: &[u8]) -> Option<u32>
        ensures { IfSome result Status }
    {
        let end = judge(self.edition, sheet, call);
        if ends::status(end) == 0 {
            return None;
        }
        Some(self.told(sheet, end))
    }

    // Every call counts the same, whatever its numbers are.
    pub fn check_rates(&self) -> Option<u32>
        ensures { IfSome result Status }
    {
        let mut room = rooms::bytes::<SHEET>();
        let sheet = self.sheet(&mut room)?;
        let line = calls::call(0, 0);
        let end = judge(self.edition, sheet, line.bytes());
        Some(self.told(sheet, end))
    }

    pub fn profile_rates(&self) -> Option<u32>
        ensures { IfSome result Status }
    {
        let mut room = rooms::bytes::<SHEET>();
        let sheet = self.sheet(&mut room)?;
        let line = calls::call(0, 0);
        let call = line.bytes();
        if let Some(status) = self.refused(sheet, call) {
            return Some(status);
        }
        Some(self.count_called(sheet, call))
    }

    pub fn pay(&self) -> Option<u32>
        ensures { IfSome result Status }
    {
        let mut room = rooms::bytes::<SHEET>();
        let picks = input::number(self.rt, self.asked.second, b"picks", LARGEST)?;
        let rate = input::number(self.rt, self.asked.third, b"rate", LARGEST)?;
        let sheet = self.sheet(&mut room)?;
        let line = calls::call(picks, rate);
        let call = line.bytes();
        if let Some(status) = self.refused(sheet, call) {
            return Some(status);
        }
        Some(self.run_called(sheet, call))
    }
}
