// A shift: a book, and a file of lines that is read and fed piece by piece, so that it may have any size.
ghost use Rattle.std.specs.Prelude.{IfSome};
ghost use Rattle.desk.specs.Statuses.{Status};

use crate::books;
use crate::job::Job;
use crate::serve::examine;
use answered::alike;
use desk::arguments::word;
use desk::rooms::SHEET;
use desk::{Outside, input, output, rooms};
use language::{TABLE, WORK};
use page::Page;
use shift::{Denied, State, Why};
use std::io::{Error, ErrorKind, Read};
use wording::ends;

// After so many lines, and again after as many, a line on standard error says how far it is.
const STRIDE: u32 = 8192;

// More pieces than any input has: no clock gets there. A loop has to have an end that can be seen.
const PIECES: u64 = u64::MAX;

// Why no further piece is fed: the input cannot be read; the book is refused, which does not come of one that was
// admitted.
#[derive(Clone, Copy)]
enum Stop {
    Unread(Error),
    Refused(Denied),
}

// Says how far it is, where a stride was passed.
fn progress(rt: &impl Outside, before: u32, after: u32) {
    if before / STRIDE < after / STRIDE {
        let mut text = io::buffer();
        let mut page = Page::on(&mut text);
        clerk::shifts::progress(&mut page, after / STRIDE * STRIDE);
        output::tell(rt, page.text());
    }
}

impl<R: Outside> Job<'_, R> {
    fn refuse(&self, book: &[u8], denied: Denied) -> u32
        ensures { Status result }
    {
        let mut end = books::of_shift(denied.why, denied.spot);
        if books::unread_shift(denied.why) {
            end = ends::completed(end, alike::unread(examine(self.edition, book)));
        }
        self.told(book, end)
    }

    // Feeds one piece more.
    fn feed(
        &self,
        book: &[u8],
        piece: &[u8],
        table: &mut [u32],
        work: &mut [u32],
        out: &mut [u8],
        state: State,
    ) -> Result<State, Stop> {
        let answer = shift::feed(self.edition, book, piece, table, work, out, state);
        answer.told.map_err(Stop::Refused)?;
        progress(self.rt, state.sums.lines, answer.state.sums.lines);
        Ok(answer.state)
    }

    // Reads and feeds all pieces; behind a line too many no byte changes anything.
    fn pieces<I: Read>(
        &self,
        input: &mut I,
        book: &[u8],
        table: &mut [u32],
        work: &mut [u32],
        begun: State,
    ) -> Result<State, Stop> {
        let mut bytes = io::large_buffer();
        let mut out = io::large_buffer();
        let mut state = begun;
        for _ in 0..PIECES {
            let got = input.read(&mut bytes).map_err(Stop::Unread)?;
            if got == 0 {
                return Ok(state);
            }
            state = self.feed(book, &bytes[..got], table, work, &mut out, state)?;
            if state.over {
                return Ok(state);
            }
        }
        Err(Stop::Unread(Error::from(ErrorKind::TimedOut)))
    }

    // Tells what came of the lines, whose file has this name.
    fn tell(
        &self,
        book: &[u8],
        name: &[u8],
        allowance: u64,
        fed: Result<State, Stop>,
    ) -> Option<u32>
        ensures { IfSome result Status }
    {
        match fed {
            Ok(state) => Some(self.finished(book, allowance, state)),
            Err(Stop::Unread(why)) => {
                output::fail(self.rt, name, &why);
                None
            }
            Err(Stop::Refused(denied)) => Some(self.refuse(book, denied)),
        }
    }

    fn finished(&self, book: &[u8], allowance: u64, state: State) -> u32
        ensures { Status result }
    {
        let finished = shift::finish(self.edition, state);
        match finished.told {
            Ok(over) => self.reporter().shift(allowance, over, finished.sums),
            Err(refusal) => self.refuse(
                book,
                Denied {
                    why: Why::Sheet(refusal),
                    spot: pairs::front(),
                },
            ),
        }
    }

    // The lines of the file that the second word names. `table` and `work` are handed on apart: a struct that held them
    // would have to promise at each call that it still holds the same two.
    fn lines(
        &self,
        book: &[u8],
        table: &mut [u32],
        work: &mut [u32],
        allowance: u64,
        begun: State,
    ) -> Option<u32>
        ensures { IfSome result Status }
    {
        let mut room = io::buffer();
        let name = word(self.rt, self.asked.second, &mut room);
        let fed = if name == b"-".as_slice() {
            self.pieces(&mut self.rt.reader(), book, table, work, begun)
        } else {
            match input::open(self.rt, name) {
                Ok(mut file) => self.pieces(&mut file, book, table, work, begun),
                Err(why) => Err(Stop::Unread(why)),
            }
        };
        self.tell(book, name, allowance, fed)
    }

    fn begin(&self, book: &[u8], allowance: u64) -> Option<u32>
        ensures { IfSome result Status }
    {
        let mut table = rooms::words::<TABLE>();
        let mut work = rooms::words::<WORK>();
        let answer = shift::begin(self.edition, book, &mut table, &mut work, allowance);
        match answer.told {
            Ok(()) => self.lines(book, &mut table, &mut work, allowance, answer.state),
            Err(denied) => Some(self.refuse(book, denied)),
        }
    }

    // One file cannot be two things, and standard input is read only once.
    pub fn shift(&self) -> Option<u32>
        ensures { IfSome result Status }
    {
        let mut room = rooms::bytes::<SHEET>();
        let asked = self.asked;
        if input::same(self.rt, asked.sheet, asked.second) {
            output::tell(self.rt, b"slip: book and lines are the same file\n");
            return None;
        }
        if input::same(self.rt, asked.second, asked.report) {
            output::tell(self.rt, b"slip: --report names the lines\n");
            return Some(2);
        }
        let allowance = input::allowance(self.rt, asked.third)?;
        let book = self.sheet(&mut room)?;
        self.begin(book, u64::from(allowance))
    }
}
