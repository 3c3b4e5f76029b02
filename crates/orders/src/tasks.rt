// Whether as many plain words stand there as a task takes, and which words are plain; and which edition is asked for.
ghost use Rattle.std.specs.Prelude.{◌≡◌};
ghost use Rattle.orders.specs.Asked.{fitting, begun_with, plain_in, wanted_of, edition_of};

use crate::asked::{Asked, Task, Turn, Unclear, Word};
use page::up_to;

// The edition where no word says one.
const FIRST: u32 = 1;

// The largest number that a word can say.
pub const LARGEST: u32 = language::LARGEST as u32;

// The rows: a sheet and two numbers; a sheet; a sheet, and an allowance if it is wanted; the same with a file of
// lines behind the sheet; any number of reports.
fn fits(task: Task, plain: usize) -> bool
    ensures { result ≡ fitting task plain }
{
    match task {
        Task::Pay => plain == 3,
        Task::Check | Task::CheckWhole | Task::Profile | Task::ProfileWhole => plain == 1,
        Task::Write | Task::Store | Task::CheckStored => plain == 1,
        Task::Run | Task::RunStored => matches!(plain, 1 | 2),
        Task::Shift => matches!(plain, 2 | 3),
        Task::Combine => plain > 0,
        Task::Help | Task::Version => true,
    }
}

impl Asked {
    // What all the words ask for. (A match: no turn does what another one does.)
    pub fn settled(self) -> Result<Task, Unclear>
        ensures { result ≡ wanted_of self.turn self }
    {
        match self.turn {
            Turn::Name => Err(Unclear::NoName),
            Turn::Edition => Err(Unclear::NoEdition),
            Turn::Meaning | Turn::Plain => {
                if fits(self.task, self.plain) {
                    Ok(self.task)
                } else {
                    Err(Unclear::Words)
                }
            }
        }
    }

    // The edition that the word kept for it says.
    pub fn edition(self, word: &[u8]) -> Option<u32>
        ensures { result ≡ edition_of self.edition word.now }
    {
        match self.edition {
            Some(_) => up_to(word, LARGEST),
            None => Some(FIRST),
        }
    }

    // Was a task asked for, or a plain word given? Then a word for a task is a plain one.
    fn is_begun(self) -> bool
        ensures { result ≡ begun_with self.plain self.task }
    {
        self.plain > 0 || !matches!(self.task, Task::Pay | Task::Help | Task::Version)
    }

    // Is this word, with those before it, taken as a plain one? Of those there may be more than are kept.
    pub fn is_plain(self, word: Word) -> bool
        ensures { result ≡ plain_in self.turn (begun_with self.plain self.task) word }
    {
        match self.turn {
            Turn::Meaning => match word {
                Word::Command(_) => self.is_begun(),
                Word::Plain => true,
                _ => false,
            },
            Turn::Name | Turn::Edition => false,
            Turn::Plain => true,
        }
    }
}
