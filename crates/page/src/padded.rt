// The last digits of a number, as many as are asked.
ghost use Rattle.std.specs.Prelude.{◌≡◌, ◌≤◌};
ghost use Rattle.io.specs.Digits.{last_digits};
ghost use Rattle.page.specs.Text.{Writes};

use crate::pages::Page;

// Puts the last digits of a number.
pub(crate) fn padded<const N: usize>(page: &mut Page, n: u64)
    requires { N ≤ 20 }
    ensures { Writes (last_digits 10 N n) page.old page.new }
{
    page.put(&padded_digits::<N>(n));
}

fn padded_digits<const N: usize>(n: u64) -> [u8; N]
    requires { N ≤ 20 }
    ensures { result ≡ last_digits 10 N n }
{
    let mut digits = [b'0'; N];
    let mut left = n;
    for i in (0..N).rev() {
        digits[i] = b'0' + (left % 10) as u8;
        left /= 10;
    }
    digits
}
