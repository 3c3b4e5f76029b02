// The two reports, written: of a sheet, of a shift and of its parts. Each answers the status.
#![tactic(auto)]

ghost use Rattle.std.specs.Prelude.{◌≡◌};
ghost use Rattle.wording.specs.Ends.{status_of, told_status};
ghost use Rattle.desk.specs.Statuses.{Status, Due};

use clerk::{people, shifts};
use desk::arguments::word;
use desk::rooms::TEXT;
use desk::statuses::kept;
use desk::{Outside, arguments, input, output, rooms};
use orders::asked::Asked;
use page::Page;
use records::machines;
use std::fs;
use std::io::Error;
use tally::sums::Sums;
use wording::causes::Cause;
use wording::ends;
use wording::ends::End;
use wording::limits::{Limits, unlimited};
use wording::places::{Places, Source};

// What came of a sheet: the sheet, the limits of the run, and the end.
#[derive(Clone, Copy)]
struct Outcome<'a> {
    source: Source<'a>,
    limits: Limits,
    end: End,
}

impl Outcome<'_> {
    // The report for people; true if it could be written.
    fn tell(&self, rt: &impl Outside) -> bool {
        let mut text = rooms::bytes::<TEXT>();
        let mut page = Page::on(&mut text);
        people::report(&mut page, self.source, self.limits, self.end);
        output::tell(rt, page.text())
    }
}

// Who reports: what slip reaches outside itself, and what was asked for.
#[derive(Drop)]
pub struct Reporter<'a, R> {
    pub rt: &'a R,
    pub asked: Asked,
}

impl<R: Outside> Reporter<'_, R> {
    fn put(&self, file: &[u8], text: &[u8]) -> Result<(), Error> {
        fs::write(self.rt, input::path(file)?, text)
    }

    // Writes the report for machines, if the words ask for it; true if that could be done.
    fn keep(&self, text: &[u8]) -> bool {
        if self.asked.report.is_none() {
            return true;
        }
        let mut room = io::buffer();
        let file = word(self.rt, self.asked.report, &mut room);
        self.put(file, text)
            .inspect_err(|why| output::fail(self.rt, file, why))
            .is_ok()
    }

    // Something was wrong before any sheet was looked at; it was told. What was to be read is not written over.
    pub fn failed(&self) -> u32
        ensures { result ≡ 2 }
    {
        if !arguments::is_plain(self.rt, self.asked.report) {
            self.keep(b"status 2\n");
        }
        2
    }

    // The slip, and where its last line has no end a line feed before the report, which is for people.
    fn slip(&self, printed: &[u8]) -> bool {
        let Some(last) = printed.last() else {
            return true;
        };
        let said = output::say(self.rt, printed);
        if said && *last != b'\n' {
            output::tell(self.rt, b"\n");
        }
        said
    }

    fn record(&self, status: u32, outcome: &Outcome) -> bool {
        let mut text = rooms::bytes::<TEXT>();
        let mut page = Page::on(&mut text);
        machines::report(
            &mut page,
            status,
            outcome.source,
            outcome.limits,
            outcome.end,
        );
        self.keep(page.text())
    }

    // Tells what came of a sheet, and answers the status. Where the slip cannot be written there is nothing to tell.
    fn told(&self, printed: &[u8], outcome: &Outcome) -> u32
        ensures due { Due (status_of outcome.now.end) result }
        ensures status { Status result }
    {
        if !self.slip(printed) {
            return self.failed();
        }
        let status = kept(ends::status(outcome.end), outcome.tell(self.rt));
        kept(status, self.record(status, outcome))
    }

    // The same of the sheet that the words name, of which these bytes are shown.
    fn named(&self, sheet: &[u8], places: Places, printed: &[u8], limits: Limits, end: End) -> u32
        ensures due { Due (status_of end) result }
        ensures status { Status result }
    {
        let mut room = io::buffer();
        let file = word(self.rt, self.asked.sheet, &mut room);
        self.told(
            printed,
            &Outcome {
                source: Source {
                    file,
                    sheet,
                    places,
                },
                limits,
                end,
            },
        )
    }

    pub fn report(&self, sheet: &[u8], printed: &[u8], limits: Limits, end: End) -> u32
        ensures due { Due (status_of end) result }
        ensures status { Status result }
    {
        self.named(sheet, Places::Bytes, printed, limits, end)
    }

    // The same of a stored sheet, of which no bytes are shown.
    pub fn report_stored(&self, printed: &[u8], limits: Limits, end: End) -> u32
        ensures due { Due (status_of end) result }
        ensures status { Status result }
    {
        self.named(b"", Places::Lines, printed, limits, end)
    }

    fn record_shift(
        &self,
        status: u32,
        file: &[u8],
        allowance: u64,
        over: bool,
        sums: Sums,
    ) -> bool {
        let mut text = rooms::bytes::<TEXT>();
        let mut page = Page::on(&mut text);
        machines::shift(&mut page, status, file, allowance, over, sums);
        self.keep(page.text())
    }

    // What is to be said behind the report of a shift: nothing, or that its file has a line too many. True if that
    // could be done.
    fn warn(&self, over: bool) -> bool {
        if !over {
            return true;
        }
        let mut room = io::buffer();
        let file = word(self.rt, self.asked.second, &mut room);
        let (sheet, places, limits) = (b"".as_slice(), Places::Bytes, unlimited());
        let end = End::Refused(Cause::ManyLines, 0);
        Outcome {
            source: Source {
                file,
                sheet,
                places,
            },
            limits,
            end,
        }
        .tell(self.rt)
    }

    // Tells what came of a shift, on standard output, and answers the status.
    pub fn shift(&self, allowance: u64, over: bool, sums: Sums) -> u32
        ensures due { Due (told_status over) result }
        ensures status { Status result }
    {
        let mut room = io::buffer();
        let file = word(self.rt, self.asked.sheet, &mut room);
        let mut text = io::buffer();
        let mut page = Page::on(&mut text);
        shifts::report(&mut page, sums);
        if !output::say(self.rt, page.text()) {
            return self.failed();
        }
        let status = kept(ends::shift_status(over), self.warn(over));
        kept(
            status,
            self.record_shift(status, file, allowance, over, sums),
        )
    }

    fn record_combined(&self, status: u32, over: bool, sums: Sums) -> bool {
        let mut text = io::buffer();
        let mut page = Page::on(&mut text);
        machines::combined(&mut page, status, over, sums);
        self.keep(page.text())
    }

    // The report for people, or that there is none; true if it could be written.
    fn say_combined(&self, over: bool, sums: Sums) -> bool {
        if over {
            let none = b"slip: number 46: more than 65536 lines together, and so no sums\n";
            return output::tell(self.rt, none);
        }
        let mut text = io::buffer();
        let mut page = Page::on(&mut text);
        shifts::report(&mut page, sums);
        output::say(self.rt, page.text())
    }

    // Tells what the reports of parts come to, and answers the status.
    pub fn combined(&self, over: bool, sums: Sums) -> u32
        ensures due { Due (told_status over) result }
        ensures status { Status result }
    {
        if !self.say_combined(over, sums) {
            return self.failed();
        }
        let status = ends::shift_status(over);
        kept(status, self.record_combined(status, over, sums))
    }
}
