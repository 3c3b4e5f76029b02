// A float in characters that a clerk reads, and its bits. All is worked out in whole numbers, from the bits.
ghost use Rattle.std.specs.Prelude.{◌≡◌, ◌≤◌, ◌<◌, ◌^◌};
ghost use Rattle.std.specs.Float.{binary64};
ghost use Rattle.std.specs.Float.Ieee.{low};
ghost use Rattle.page.specs.Floats as Floats;
ghost use Rattle.page.specs.Floats.{is_exact, sign_text, about_text, thousandths_text, decimal_text};
ghost use Rattle.page.specs.Floats.{product_text, float_text, capital, bits_text};
ghost use Rattle.page.specs.Text.{Writes};

use crate::padded::padded;
use crate::pages::Page;

// The sign's bit; an infinity's bits without it; the lowest bit of the exponent's.
const SIGN: u64 = 0x8000_0000_0000_0000;

const ENDLESS: u64 = 0x7ff0_0000_0000_0000;

const HIDDEN: u64 = 0x0010_0000_0000_0000;

// The least float is 1 over 2 to the power of this.
const LOW: u64 = 1074;

fn significand(bits: u64) -> u64
    ensures { (result ≡ Floats.significand bits) × (result < 9007199254740992) }
{
    let fraction = bits % HIDDEN;
    if bits % SIGN / HIDDEN == 0 {
        return fraction;
    }
    HIDDEN + fraction
}

fn steps(bits: u64) -> u64
    ensures { result ≡ Floats.steps bits }
{
    let field = bits % SIGN / HIDDEN;
    if field == 0 {
        return 0;
    }
    field - 1
}

fn power(k: u64) -> u64
    requires { k < 64 }
    ensures { result ≡ 2 ^ k }
{
    1 << k
}

// Over a power of 2 that has no room in 64 bits a significand is less than half a thousandth.
fn thousandths(q: u64, s: u64) -> u64
    requires { q < 9007199254740992 }
    ensures { result ≡ Floats.thousandths q s }
{
    if s < 64 {
        return (q * 1000 + power(s) / 2) >> s;
    }
    0
}

fn exact(q: u64, s: u64) -> bool
    requires { q < 9007199254740992 }
    ensures { result ≡ is_exact q s }
{
    if s < 64 {
        return q * 1000 % power(s) == 0;
    }
    q == 0
}

fn sign(page: &mut Page, bits: u64)
    ensures { Writes (sign_text bits) page.old page.new }
{
    if SIGN <= bits {
        page.put(b"-");
    }
}

fn about(page: &mut Page, q: u64, s: u64)
    requires { q < 9007199254740992 }
    ensures { Writes (about_text q s) page.old page.new }
{
    if !exact(q, s) {
        page.put(b"~");
    }
}

fn with_point(page: &mut Page, n: u64)
    ensures { Writes (thousandths_text n) page.old page.new }
{
    page.decimal(n / 1000);
    page.put(b".");
    padded::<3>(page, n);
}

fn in_thousandths(page: &mut Page, bits: u64)
    requires { Floats.steps bits < low binary64 }
    ensures { Writes (decimal_text bits) page.old page.new }
{
    let q = significand(bits);
    let s = LOW - steps(bits);
    about(page, q, s);
    sign(page, bits);
    with_point(page, thousandths(q, s));
}

fn product(page: &mut Page, bits: u64)
    requires { low binary64 ≤ Floats.steps bits }
    ensures { Writes (product_text bits) page.old page.new }
{
    let q = significand(bits);
    let k = steps(bits) - LOW;
    sign(page, bits);
    page.decimal(q);
    page.put(b"*2^");
    page.decimal(k);
}

fn upper(d: u8) -> u8
    requires { d < 16 }
    ensures { result ≡ capital d }
{
    if d < 10 { b'0' + d } else { b'A' - 10 + d }
}

impl Page<'_> {
    // Puts a float in decimal digits, `~` before it where three behind its point do not tell all; from 2 to the
    // power of 52 on as a product, and what is no finite number in words.
    pub fn float(&mut self, bits: u64)
        ensures { Writes (float_text bits) self.old self.new }
    {
        let unsigned = bits % SIGN;
        if ENDLESS < unsigned {
            self.put(b"not a number");
        } else if unsigned == ENDLESS {
            sign(self, bits);
            self.put(b"infinity");
        } else if steps(bits) < LOW {
            in_thousandths(self, bits);
        } else {
            product(self, bits);
        }
    }

    // Puts the bits in 16 digits of hexadecimal.
    pub fn bits(&mut self, bits: u64)
        ensures { Writes (bits_text bits) self.old self.new }
    {
        for left in (0..16u64).rev() {
            self.put(&[upper(((bits >> (4 * left)) % 16) as u8)]);
        }
    }
}
