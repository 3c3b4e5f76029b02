// Digits as a number.
ghost use Rattle.std.specs.Prelude.{◌≡◌, ◌-◌, ◌≤◌, ◌<◌};
ghost use Rattle.language.specs.Text as Text;
ghost use Rattle.language.specs.Text.{number_from};
ghost use Rattle.page.specs.Amounts.{is_number, Spells, number_up_to, amount_in};

// Is this a number: at least one byte, and each a digit?
fn is_number(word: &[u8]) -> bool
    ensures { result ≡ is_number word.now }
{
    !word.is_empty() && word.iter().all(|b| b.is_ascii_digit())
}

// What a digit is worth.
fn worth(b: u8) -> u64
    ensures { (result ≡ Text.worth b) × (result < 266) }
{
    match b {
        0..=b'9' => b.saturating_sub(b'0') as u64,
        b':'..=b'F' => b.saturating_sub(b'A') as u64 + 10,
        _ => b.saturating_sub(b'a') as u64 + 10,
    }
}

// The number that these digits spell, or one that is above `most` too where theirs is. No digit is read once
// it is, and so no product can wrap.
fn spelled(digits: &[u8], most: u64) -> u64
    requires { most < 72057594037927936 }
    ensures { Spells most (number_from 10 0 digits.now) result }
{
    let mut value: u64 = 0;
    for digit in digits {
        value = value * 10 + worth(*digit);
        if most < value {
            return value;
        }
    }
    value
}

// A word that is a number up to a limit.
fn within(word: &[u8], most: u64) -> Option<u64>
    requires { most < 72057594037927936 }
    ensures { result ≡ number_up_to most word.now }
{
    if !is_number(word) {
        return None;
    }
    let value = spelled(word, most);
    if value <= most { Some(value) } else { None }
}

pub fn up_to(word: &[u8], most: u32) -> Option<u32>
    ensures { result ≡ number_up_to most word.now }
{
    let n = within(word, most as u64)?;
    Some(n as u32)
}

// The largest sum that a shift can come to; the lowest is as far from zero.
const AMOUNT: u64 = 140737488355328;

// A word that is a number with or without a sign, as far as a sum can be from zero.
pub fn signed(word: &[u8]) -> Option<i64>
    ensures { result ≡ amount_in word.now }
{
    if word.is_empty() {
        return None;
    }
    if word[0] == b'-' {
        let size = within(&word[1..], AMOUNT)?;
        return Some(-(size as i64));
    }
    let size = within(word, AMOUNT)?;
    Some(size as i64)
}
