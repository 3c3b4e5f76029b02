// What is done for each task: one function each, which answers the status, and one row in `perform`. It answers none
// where something was wrong before any sheet was looked at, which it told.
ghost use Rattle.std.specs.Prelude.{IfSome};
ghost use Rattle.desk.specs.Statuses.{Status};
ghost use Rattle.grumpy.specs.Reports.{checked_report};
ghost use Rattle.language.specs.Answers.{CheckedUnder};
ghost use Rattle.language.specs.Edition.{text_in};
ghost use Rattle.language.specs.Sizes.{BOX, TABLE};

use crate::job::Job;
use answered::{alike, whole};
use desk::rooms::{SHEET, STORED};
use desk::{Outside, arguments, help, input, output, rooms};
use grumpy::answers::{Checked, Wrote};
use language::{SOURCE, TABLE, WORK};
use orders::asked::{Asked, Task, Unclear};
use reports::Reporter;
use wording::causes::Cause;
use wording::ends::End;
use wording::limits::{Limits, unlimited};

// What check answers of a whole sheet. The same of one with a call under it, and of a stored one, are a call of another
// service each, and their contracts name another origin.
pub fn examine(edition: u32, source: &[u8]) -> Checked<usize>
    ensures { CheckedUnder BOX (text_in edition source.now) TABLE (checked_report result) }
{
    grumpy::check(edition, source, &mut rooms::words::<TABLE>())
}

impl<R: Outside> Job<'_, R> {
    fn check_whole(&self) -> Option<u32>
        ensures { IfSome result Status }
    {
        let mut room = rooms::bytes::<SHEET>();
        let sheet = self.sheet(&mut room)?;
        let end = whole::of_check(examine(self.edition, sheet));
        Some(self.told(sheet, end))
    }

    // Runs a whole sheet, and reports, with what its profile says.
    fn run_whole(&self) -> Option<u32>
        ensures { IfSome result Status }
    {
        let mut room = rooms::bytes::<SHEET>();
        let mut table = rooms::words::<TABLE>();
        let mut work = rooms::words::<WORK>();
        let mut out = io::large_buffer();
        let allowance = u64::from(input::allowance(self.rt, self.asked.second)?);
        let sheet = self.sheet(&mut room)?;
        let answer = grumpy::run(
            self.edition,
            sheet,
            &mut table,
            &mut work,
            &mut out,
            allowance,
        );
        let most = alike::known(grumpy::profile(self.edition, sheet, &mut table));
        Some(self.ran(
            sheet,
            &out,
            Limits { allowance, most },
            whole::of_run(answer),
        ))
    }

    // Tells what came of writing; what was written stands first in `out`.
    fn wrote(&self, sheet: &[u8], out: &[u8], answer: Wrote) -> u32
        ensures { Status result }
    {
        match answer {
            Ok(long) => {
                let end = whole::of_check(examine(self.edition, sheet));
                let written = input::within(long, out);
                self.reporter().report(sheet, written, unlimited(), end)
            }
            Err(r) => self.told(sheet, End::Refused(Cause::Refused(r.why), r.place)),
        }
    }

    // What a service writes of a whole sheet, if it passes.
    fn rewritten<F>(&self, out: &mut [u8], service: F) -> Option<u32>
    where
        F: FnOnce(u32, &[u8], &mut [u32], &mut [u8]) -> Wrote,
        requires { F.IsAlwaysCallable service }
        ensures { IfSome result Status }
    {
        let mut room = rooms::bytes::<SHEET>();
        let mut table = rooms::words::<TABLE>();
        let sheet = self.sheet(&mut room)?;
        let answer = service(self.edition, sheet, &mut table, out);
        Some(self.wrote(sheet, out, answer))
    }

    // Writes a whole sheet out again.
    fn write(&self) -> Option<u32>
        ensures { IfSome result Status }
    {
        self.rewritten(&mut rooms::bytes::<SOURCE>(), grumpy::write)
    }

    // Writes the stored form of a whole sheet. There is room for that of every sheet.
    fn store(&self) -> Option<u32>
        ensures { IfSome result Status }
    {
        self.rewritten(&mut rooms::bytes::<STORED>(), grumpy::store)
    }

    // A row for each task: it is chosen here and nowhere else, so a table of functions would say no more. An edition
    // that is neither 1 nor 2 is refused by the box.
    fn perform(&self, task: Task) -> Option<u32>
        ensures { IfSome result Status }
    {
        match task {
            Task::Pay => self.pay(),
            Task::Check => self.check_rates(),
            Task::CheckWhole => self.check_whole(),
            Task::Run => self.run_whole(),
            Task::Write => self.write(),
            Task::Store => self.store(),
            Task::CheckStored => self.check_stored(),
            Task::RunStored => self.run_stored(),
            Task::Shift => self.shift(),
            Task::Profile => self.profile_rates(),
            Task::ProfileWhole => self.profile_whole(),
            Task::Combine => self.combine(),
            Task::Help => Some(help::help(self.rt)),
            Task::Version => Some(help::version(self.rt)),
        }
    }
}

// What is told where the words ask for no task.
fn unclear(why: Unclear) -> &'static [u8] {
    match why {
        Unclear::NoName => b"slip: --report wants a file's name behind it\n",
        Unclear::NoEdition => b"slip: --edition wants a number behind it, 1 or 2\n",
        Unclear::Words =>
            b"use: slip RATE-SHEET PICKS RATE, slip check [--whole] SHEET, slip profile [--whole] SHEET,
     slip run SHEET [ALLOWANCE], slip write SHEET, slip store SHEET, slip check-stored FILE,
     slip run-stored FILE [ALLOWANCE], slip shift BOOK LINES [ALLOWANCE], slip shift --combine REPORT ..
",
    }
}

// Is the file that is to be written one that is to be read? Then that is told. Where there is no sheet, the program's
// own name stands for it.
fn is_read(rt: &impl Outside, asked: Asked) -> bool {
    if matches!(asked.task, Task::Combine) {
        let so = arguments::is_plain(rt, asked.report);
        return told_if(rt, so, b"slip: --report names one of the reports\n");
    }
    let so = input::same(rt, asked.sheet.or(Some(0)), asked.report);
    told_if(rt, so, b"slip: --report names the sheet itself\n")
}

// Says a text where it is so.
fn told_if(rt: &impl Outside, so: bool, text: &[u8]) -> bool {
    if so {
        output::tell(rt, text);
    }
    so
}

// Does what the words ask for.
fn done(rt: &impl Outside, asked: Asked) -> Option<u32>
    ensures { IfSome result Status }
{
    let edition = input::edition(rt, asked)?;
    match asked.settled() {
        Ok(task) => Job { rt, asked, edition }.perform(task),
        Err(why) => {
            output::tell(rt, unclear(why));
            None
        }
    }
}

pub fn serve(rt: &impl Outside, asked: Asked) -> u32
    ensures { Status result }
{
    if let Some(i) = asked.strange {
        input::strange(rt, i);
        return Reporter { rt, asked }.failed();
    }
    if is_read(rt, asked) {
        return 2;
    }
    match done(rt, asked) {
        Some(status) => status,
        None => Reporter { rt, asked }.failed(),
    }
}
