// The profile: whether a sheet must finish, and how many units it can use.
ghost use Rattle.std.specs.Prelude.{IfSome};
ghost use Rattle.desk.specs.Statuses.{Status};

use crate::job::Job;
use answered::{called, whole};
use desk::rooms::SHEET;
use desk::{Outside, rooms};
use language::TABLE;

impl<R: Outside> Job<'_, R> {
    // Of a rate sheet that passes with the call under it.
    pub fn count_called(&self, sheet: &[u8], call: &[u8]) -> u32
        ensures { Status result }
    {
        let mut table = rooms::words::<TABLE>();
        let answer = grumpy::profile_pair(self.edition, sheet, call, &mut table);
        self.told(sheet, called::of_profile(answer))
    }

    // Of a whole sheet.
    pub fn profile_whole(&self) -> Option<u32>
        ensures { IfSome result Status }
    {
        let mut room = rooms::bytes::<SHEET>();
        let mut table = rooms::words::<TABLE>();
        let sheet = self.sheet(&mut room)?;
        let answer = grumpy::profile(self.edition, sheet, &mut table);
        Some(self.told(sheet, whole::of_profile(answer)))
    }
}
