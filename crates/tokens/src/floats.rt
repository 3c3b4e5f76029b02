// What a float number is worth.
ghost use Rattle.std.specs.Prelude.{◌≡◌, ◌^◌, ◌≤◌};
ghost use Rattle.std.proofs.Math.Seq.{slice};
ghost use Rattle.language.specs.Decimals.{digits_from};
ghost use Rattle.language.specs.Sizes.{DIGITS};
ghost use Rattle.layout.specs.Names.{float_bits};
ghost use Rattle.tokens.specs.Found.{Decimal};
ghost use Rattle.tokens.specs.Shown.{text_of};

use crate::view::Text;

// A float number is its first place, its point and its end, as Decimal has them: a struct would name the three again.

// The whole number of all its digits. They are few, so no product can wrap.
fn all_digits(text: &Text, at: usize, point: usize, end: usize) -> u64
    requires { Decimal (text_of text.now) at point end }
    ensures { (result ≡ digits_from 0 (slice at end (text_of text.now))) × (result ≤ 10 ^ DIGITS) }
{
    let mut value: u64 = 0;
    for i in at..end {
        if i != point {
            value = value * 10 + u64::from(text.byte(i) - b'0');
        }
    }
    value
}

// The bits of the float number from one place up to another, with its point between them. Both whole
// numbers are floats with nothing lost, so it is rounded once, by the division.
pub fn bits(text: &Text, at: usize, point: usize, end: usize) -> u64
    requires { Decimal (text_of text.now) at point end }
    ensures { result ≡ float_bits (slice at end (text_of text.now)) }
{
    let all = all_digits(text, at, point, end);
    let power = 10u64.pow((end - (point + 1)) as u32);
    layout::floats::bits((all as f64) / (power as f64))
}
