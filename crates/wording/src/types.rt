// Types in words, by their numbers, and values.
ghost use Rattle.std.specs.Prelude.{◌≡◌, ◌/◌, min};
ghost use Rattle.layout.specs.Values.{meant};
ghost use Rattle.page.specs.Text.{Writes};
ghost use Rattle.wording.specs.Types.{base_words, ref_words, type_words};
ghost use Rattle.wording.specs.Values.{signed_words, truth_words, cell_words, value_words, bits_line, bits_words};

use layout::floats;
use layout::values::Value;
use page::Page;

// As many `ref` as the type has, which are 15 at most.
fn refs(page: &mut Page, type_number: u32)
    ensures { Writes (ref_words (min (type_number / 8) 15)) page.old page.new }
{
    let all = b" ref ref ref ref ref ref ref ref ref ref ref ref ref ref ref";
    let n = (type_number as usize / 8 * 4).min(all.len());
    page.put(&all[..n]);
}

#[tactic(auto, unfolding(crate::specs::Types::base_words))]
fn base(number: u32) -> &'static [u8]
    ensures { result.now ≡ base_words number }
{
    match number {
        1 => b"int",
        2 => b"bool",
        4 => b"float",
        _ => b"unit",
    }
}

// A type's name.
pub fn name(page: &mut Page, type_number: u32)
    ensures { Writes (type_words type_number) page.old page.new }
{
    page.put(base(type_number % 8));
    refs(page, type_number);
}

pub fn signed(page: &mut Page, n: i64)
    ensures { Writes (signed_words n) page.old page.new }
{
    if n < 0 {
        page.put(b"-");
    }
    page.decimal(n.unsigned_abs());
}

#[tactic(auto, unfolding(crate::specs::Values::truth_words))]
fn truth(b: bool) -> &'static [u8]
    ensures { result.now ≡ truth_words b }
{
    if b { b"true" } else { b"false" }
}

fn cell(page: &mut Page, birth: u32)
    ensures { Writes (cell_words birth) page.old page.new }
{
    page.put(b"cell ");
    page.decimal(birth as u64);
}

// A value.
#[tactic(auto, unfolding(crate::specs::Values::value_words))]
pub fn value(page: &mut Page, value: Value)
    ensures { Writes (value_words (meant value)) page.old page.new }
{
    match value {
        Value::Int(n) => signed(page, n as i64),
        Value::Float(x) => page.float(floats::bits(x)),
        Value::Flag(b) => page.put(truth(b)),
        Value::Nothing => page.put(b"tt"),
        Value::Cell(birth) => cell(page, birth),
    }
}

fn bits_line(page: &mut Page, bits: u64)
    ensures { Writes (bits_line bits) page.old page.new }
{
    page.put(b"bits ");
    page.bits(bits);
    page.put(b"\n");
}

// Of a float its bits, too.
pub fn bits(page: &mut Page, value: Value)
    ensures { Writes (bits_words (meant value)) page.old page.new }
{
    if let Value::Float(x) = value {
        bits_line(page, floats::bits(x));
    }
}
