// Lines, and parts of them, that both reports have.
ghost use Rattle.page.specs.Text.{Writes};
ghost use Rattle.layout.specs.Values.{meant};
ghost use Rattle.wording.specs.Fields.{number_line};
ghost use Rattle.wording.specs.Fields.{name_words};
ghost use Rattle.wording.specs.Types.{type_line};
ghost use Rattle.wording.specs.Values.{value_lines};

use crate::types;
use layout::values::Value;
use page::{Page, readable};

// A file's name, so that it can be seen.
pub fn name(page: &mut Page, file: &[u8])
    ensures { Writes (name_words file.now) page.old page.new }
{
    let plain = readable(file);
    page.shown(file, plain);
}

// A name and a number.
pub fn field(page: &mut Page, name: &[u8], n: u64)
    ensures { Writes (number_line name.now n) page.old page.new }
{
    page.put(name);
    page.put(b" ");
    page.decimal(n);
    page.put(b"\n");
}

// The type.
pub fn type_line(page: &mut Page, type_number: u32)
    ensures { Writes (type_line type_number) page.old page.new }
{
    page.put(b"type ");
    types::name(page, type_number);
    page.put(b"\n");
}

// The value, and of a float its bits.
pub fn value_lines(page: &mut Page, value: Value)
    ensures { Writes (value_lines (meant value)) page.old page.new }
{
    page.put(b"value ");
    types::value(page, value);
    page.put(b"\n");
    types::bits(page, value);
}
