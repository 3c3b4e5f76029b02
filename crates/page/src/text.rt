// A number put on a page, and bytes put so that they can be seen.
ghost use Rattle.std.specs.Prelude.{◌≡◌, ◌<◌};
ghost use Rattle.io.specs.Digits.{hex_digit_ascii};
ghost use Rattle.page.specs.Text.{Writes, decimal_of, is_hidden, byte_shown, all_shown, byte_blank, all_blank};

use crate::characters::is_inner;
use crate::pages::Page;

impl Page<'_> {
    // Puts a number in decimal digits.
    pub fn decimal(&mut self, n: u64)
        ensures { Writes (decimal_of n) self.old self.new }
    {
        let mut digits = [0u8; 20];
        let k = io::decimal(n, &mut digits);
        self.put(&digits[..k]);
    }

    // Puts bytes so that they can be seen; `plain` where they are UTF-8.
    pub fn shown(&mut self, bytes: &[u8], plain: bool)
        ensures { Writes (all_shown plain bytes.now) self.old self.new }
    {
        for b in bytes {
            self.shown_byte(*b, plain);
        }
    }

    // Puts a byte so that it can be seen: as it is, or as `\x1b`.
    fn shown_byte(&mut self, b: u8, plain: bool)
        ensures { Writes (byte_shown plain b) self.old self.new }
    {
        if is_hidden(b, plain) {
            self.put(&[b'\\', b'x', hex(b / 16), hex(b % 16)]);
        } else {
            self.put_byte(b);
        }
    }

    // Puts blanks as wide as these bytes are shown.
    pub fn blanks(&mut self, bytes: &[u8], plain: bool)
        ensures { Writes (all_blank plain bytes.now) self.old self.new }
    {
        for b in bytes {
            self.blank_byte(*b, plain);
        }
    }

    // Puts a blank as wide as a byte is shown; a byte inside a character has no width of its own.
    fn blank_byte(&mut self, b: u8, plain: bool)
        ensures { Writes (byte_blank plain b) self.old self.new }
    {
        if is_hidden(b, plain) {
            self.put(b"    ");
        } else if b == b'\t' {
            self.put_byte(b'\t');
        } else if !is_inner(b) {
            self.put_byte(b' ');
        }
    }
}

// A digit in small letters. `floats` has its own in capitals: one for both would take the letter at each call.
fn hex(d: u8) -> u8
    requires { d < 16 }
    ensures { result ≡ hex_digit_ascii d }
{
    if d < 10 { b'0' + d } else { b'a' - 10 + d }
}

// Is this a byte that is not shown as it is: a control byte but for the tab, and in a line that cannot be
// read a byte beyond ASCII?
#[tactic(auto, unfolding(crate::specs::Text::is_hidden))]
fn is_hidden(b: u8, plain: bool) -> bool
    ensures { result ≡ is_hidden plain b }
{
    match b {
        b'\t' | b' '..=b'~' => false,
        0..=31 | 127 => true,
        128..=255 => !plain,
    }
}
