// What a word means by itself: the rows of commands, and those of options.
ghost use Rattle.orders.specs.Meanings.{NoCommand, Means};

use crate::asked::{Task, Word};
use check::same;

// The rows of options, for a word that is no command.
fn option(text: &[u8]) -> Word
    requires { NoCommand text.now }
    ensures { Means text.now result }
{
    match text {
        b"--whole" => Word::Whole,
        b"--combine" => Word::Combine,
        b"--report" => Word::Report,
        b"--edition" => Word::Edition,
        b"--help" => Word::Instead(Task::Help),
        b"--version" => Word::Instead(Task::Version),
        b"--" => Word::Rest,
        _ if text.starts_with(b"--") => Word::Strange,
        _ => Word::Plain,
    }
}

// The rows of commands. They are no rows of a `match`, as those of options are: that a word is none of them would have
// to be shown again on each of fifty ways out of it, at which `grind` stops, and nothing shorter was found.
pub fn meaning(text: &[u8]) -> Word
    ensures { Means text.now result }
{
    if same(text, b"check") {
        return Word::Command(Task::Check);
    }
    if same(text, b"run") {
        return Word::Command(Task::Run);
    }
    if same(text, b"write") {
        return Word::Command(Task::Write);
    }
    if same(text, b"store") {
        return Word::Command(Task::Store);
    }
    if same(text, b"check-stored") {
        return Word::Command(Task::CheckStored);
    }
    if same(text, b"run-stored") {
        return Word::Command(Task::RunStored);
    }
    if same(text, b"shift") {
        return Word::Command(Task::Shift);
    }
    if same(text, b"profile") {
        return Word::Command(Task::Profile);
    }
    option(text)
}
