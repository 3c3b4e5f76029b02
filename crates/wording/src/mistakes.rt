// What is wrong with the words behind the program's name, and with files that they name.
ghost use Rattle.page.specs.Text.{Writes};
ghost use Rattle.wording.specs.Mistakes.{strange_text, no_number_text, file_text, no_report_text};

use crate::fields::name;
use page::Page;

// A word that looks like an option and is none.
pub fn strange(page: &mut Page, word: &[u8])
    ensures { Writes (strange_text word.now) page.old page.new }
{
    page.put(b"slip: `");
    name(page, word);
    page.put(b"` is no option here; slip --help has them\n")
}

// A word that is no number up to `most`, where `what` wants one.
pub fn no_number(page: &mut Page, what: &[u8], word: &[u8], most: u32)
    ensures { Writes (no_number_text what.now word.now most) page.old page.new }
{
    page.put(b"slip: ");
    page.put(what);
    page.put(b": `");
    name(page, word);
    page.put(b"` is no number from 0 to ");
    page.decimal(most as u64);
    page.put(b"\n");
}

// A file's name, before the system's own words for what is wrong with it.
pub fn file(page: &mut Page, word: &[u8])
    ensures { Writes (file_text word.now) page.old page.new }
{
    page.put(b"slip: `");
    name(page, word);
    page.put(b"`");
}

// A file that is no report of a shift, or one without its sums.
pub fn no_report(page: &mut Page, word: &[u8])
    ensures { Writes (no_report_text word.now) page.old page.new }
{
    file(page, word);
    page.put(b" is no report of a shift with its sums, as slip shift writes it with --report\n");
}
