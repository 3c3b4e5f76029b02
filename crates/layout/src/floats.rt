// A float and its 64 bits, whole and as two words. The logic knows one not-a-number, and it has one pattern.
ghost use Rattle.std.specs.Prelude.{◌≡◌, ◌+◌, ◌*◌, ◌/◌, ◌%◌};
ghost use Rattle.std.specs.Float.{binary64};
ghost use Rattle.std.specs.Float.Ieee.{of_bits, to_bits};
ghost use Rattle.layout.specs.Values.{HALF};

use std::num::{f64_from_bits_with_nan, f64_to_bits_with_nan};

// One more than the largest word.
const HALF: u64 = 4294967296;

// The bits of x.
pub fn bits(x: f64) -> u64
    ensures { result ≡ to_bits binary64 x }
{
    f64_to_bits_with_nan(x)
}

// The float that has these bits.
pub fn of_bits(n: u64) -> f64
    ensures { result ≡ of_bits binary64 n }
{
    f64_from_bits_with_nan(n)
}

// The words of a number of 64 bits, and the number of two words.
pub fn low(n: u64) -> u32
    ensures { result ≡ n % HALF }
{
    (n % HALF) as u32
}

pub fn high(n: u64) -> u32
    ensures { result ≡ n / HALF }
{
    (n / HALF) as u32
}

pub fn join(high: u32, low: u32) -> u64
    ensures { result ≡ HALF * high + low }
{
    HALF * u64::from(high) + u64::from(low)
}
