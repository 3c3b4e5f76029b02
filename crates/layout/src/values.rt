// A value and its words: a tag, and two for the value itself. A value survives its way through words.
ghost use Rattle.std.specs.Prelude.{◌≡◌};
ghost use Rattle.layout.specs.Values.{meant, value_in, tag_of, low_of, high_of, Survives};

use crate::floats;

// In the order of their tags, so that a value's tag is the number of its case.
#[derive(Clone, Copy)]
pub enum Value {
    Int(i32),
    Flag(bool),
    Nothing,
    Float(f64),
    Cell(u32),
}

// A value in words.
#[derive(Clone, Copy)]
pub struct InWords {
    pub tag: u32,
    pub low: u32,
    pub high: u32,
}

// The value that a tag and two words stand for.
pub fn from_words(tag: u32, low: u32, high: u32) -> Value
    ensures { meant result ≡ value_in tag low high }
{
    match tag {
        0 => Value::Int(low.cast_signed()),
        1 => Value::Flag(low == 1),
        2 => Value::Nothing,
        3 => Value::Float(floats::of_bits(floats::join(high, low))),
        _ => Value::Cell(low),
    }
}

// Those of a value that needs one word.
fn single(tag: u32, low: u32) -> InWords
    ensures { (result.tag ≡ tag) × (result.low ≡ low) × (result.high ≡ 0) }
{
    InWords { tag, low, high: 0 }
}

// The words of v, all at once, so that its case is told once.
pub fn words(v: Value) -> InWords
    ensures { (result.tag ≡ tag_of v) × (result.low ≡ low_of v) × (result.high ≡ high_of v) × Survives v }
{
    match v {
        Value::Int(z) => single(0, z.cast_unsigned()),
        Value::Flag(b) => single(1, u32::from(b)),
        Value::Nothing => single(2, 0),
        Value::Float(x) => {
            let n = floats::bits(x);
            InWords {
                tag: 3,
                low: floats::low(n),
                high: floats::high(n),
            }
        }
        Value::Cell(n) => single(4, n),
    }
}
