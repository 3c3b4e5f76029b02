// What slip says of itself, written: how it is asked, and the sizes that it keeps to.
ghost use Rattle.desk.specs.Statuses.{Status, Due};

use crate::output::say;
use crate::statuses::kept;
use page::Page;
use std::io::{Eprint, Print};

// A text, put on a page and written. The status: 0 if all could be written.
fn written<R: Print + Eprint, F: FnOnce(&mut Page)>(rt: &R, text: F) -> u32
    requires { F.IsAlwaysCallable text }
    ensures due { Due 0 result }
    ensures status { Status result }
{
    let mut room = io::buffer();
    let mut page = Page::on(&mut room);
    text(&mut page);
    kept(0, say(rt, page.text()))
}

// What `--help` is answered.
pub fn help(rt: &(impl Print + Eprint)) -> u32
    ensures due { Due 0 result }
    ensures status { Status result }
{
    written(rt, wording::help::help)
}

// What `--version` is answered.
pub fn version(rt: &(impl Print + Eprint)) -> u32
    ensures due { Due 0 result }
    ensures status { Status result }
{
    written(rt, wording::help::version)
}
