// What the words behind the program's name ask for. A word that means something by itself is a row of
// `meanings`; any other is taken in its turn, as the sheet or as one of the two words that may follow it. A
// new command is a task, its row in `meanings` and its row in `tasks::fits`.
ghost use Rattle.std.specs.Prelude.{◌≡◌};
ghost use Rattle.orders.specs.Asked.{kept, unasked, with_strange, with_plain, with_command};
ghost use Rattle.orders.specs.Asked.{with_whole, with_combine, with_word, in_turn};

// What is to be done.
#[derive(Clone, Copy)]
pub enum Task {
    Pay,
    Check,
    CheckWhole,
    Run,
    Write,
    Store,
    CheckStored,
    RunStored,
    Shift,
    Profile,
    ProfileWhole,
    Combine,
    Help,
    Version,
}

// What a word means by itself.
#[derive(Clone, Copy)]
pub enum Word {
    Command(Task),
    // Asked for wherever it stands.
    Instead(Task),
    Whole,
    Combine,
    Report,
    Edition,
    // No word behind it means anything by itself.
    Rest,
    // It looks like an option and is none.
    Strange,
    Plain,
}

// How the next word is taken: by what it means, as the name of the report's file, as the number of the edition,
// or as it stands.
#[derive(Clone, Copy)]
pub enum Turn {
    Meaning,
    Name,
    Edition,
    Plain,
}

// What the words so far ask for. A word is kept by its number; 0 is the program's name, and so no word.
#[derive(Clone, Copy)]
pub struct Asked {
    pub task: Task,
    pub turn: Turn,
    // The plain words: how many there are, and which are the first three.
    pub plain: usize,
    pub sheet: Option<usize>,
    pub second: Option<usize>,
    pub third: Option<usize>,
    // The report's file.
    pub report: Option<usize>,
    // The number of the edition.
    pub edition: Option<usize>,
    // The last word that looks like an option and is none here.
    pub strange: Option<usize>,
}

// Why the words ask for no task: a file's name or an edition is missing; there are too many plain words or too few.
#[derive(Clone, Copy)]
pub enum Unclear {
    NoName,
    NoEdition,
    Words,
}

// The number that a word is kept by.
fn kept(i: usize) -> Option<usize>
    ensures { result ≡ kept i }
{
    if i == 0 { None } else { Some(i) }
}

impl Asked {
    pub fn nothing() -> Asked
        ensures { result ≡ unasked }
    {
        Asked {
            task: Task::Pay,
            turn: Turn::Meaning,
            plain: 0,
            sheet: None,
            second: None,
            third: None,
            report: None,
            edition: None,
            strange: None,
        }
    }

    // A word that looks like an option and is none here.
    pub fn unknown(self, i: usize) -> Asked
        ensures { result ≡ with_strange self i }
    {
        Asked {
            strange: kept(i),
            ..self
        }
    }

    // A word that means nothing by itself.
    fn with_plain(self, i: usize) -> Asked
        ensures { result ≡ with_plain self i }
    {
        let more = Asked {
            plain: self.plain.saturating_add(1),
            ..self
        };
        match self.plain {
            0 => Asked {
                sheet: kept(i),
                ..more
            },
            1 => Asked {
                second: kept(i),
                ..more
            },
            2 => Asked {
                third: kept(i),
                ..more
            },
            _ => more,
        }
    }

    // A word for a task: it asks for it where nothing was asked for before it, and is else a plain word.
    fn with_command(self, task: Task, i: usize) -> Asked
        ensures { result ≡ with_command self task i }
    {
        if self.plain > 0 {
            return self.with_plain(i);
        }
        match self.task {
            Task::Pay => Asked { task, ..self },
            Task::Help | Task::Version => self,
            _ => self.with_plain(i),
        }
    }

    // `--whole` belongs to `check` and `profile`.
    fn with_whole(self, i: usize) -> Asked
        ensures { result ≡ with_whole self.task self i }
    {
        match self.task {
            Task::Check => Asked {
                task: Task::CheckWhole,
                ..self
            },
            Task::Profile => Asked {
                task: Task::ProfileWhole,
                ..self
            },
            Task::CheckWhole | Task::ProfileWhole | Task::Help | Task::Version => self,
            _ => self.unknown(i),
        }
    }

    // `--combine` belongs to `shift`.
    fn with_combine(self, i: usize) -> Asked
        ensures { result ≡ with_combine self.task self i }
    {
        match self.task {
            Task::Shift => Asked {
                task: Task::Combine,
                ..self
            },
            Task::Combine | Task::Help | Task::Version => self,
            _ => self.unknown(i),
        }
    }

    fn with_word(self, word: Word, i: usize) -> Asked
        ensures { result ≡ with_word self word i }
    {
        match word {
            Word::Command(task) => self.with_command(task, i),
            Word::Instead(task) => Asked { task, ..self },
            Word::Whole => self.with_whole(i),
            Word::Combine => self.with_combine(i),
            Word::Report => Asked {
                turn: Turn::Name,
                ..self
            },
            Word::Edition => Asked {
                turn: Turn::Edition,
                ..self
            },
            Word::Rest => Asked {
                turn: Turn::Plain,
                ..self
            },
            Word::Strange => self.unknown(i),
            Word::Plain => self.with_plain(i),
        }
    }

    // Takes one word more, which has this number and means this by itself. (A match: each turn is an update of its own.)
    pub fn take(self, word: Word, i: usize) -> Asked
        ensures { result ≡ in_turn self.turn self word i }
    {
        match self.turn {
            Turn::Meaning => self.with_word(word, i),
            Turn::Name => Asked {
                report: kept(i),
                turn: Turn::Meaning,
                ..self
            },
            Turn::Edition => Asked {
                edition: kept(i),
                turn: Turn::Meaning,
                ..self
            },
            Turn::Plain => self.with_plain(i),
        }
    }
}
