// Hexadecimal in capitals, as stored sheets have it: what a digit is worth, and the byte that two digits
// tell.
ghost use Rattle.std.specs.Prelude.{◌≡◌};
ghost use Rattle.tokens.specs.Shown.{IsDigit, is_capital, two};

// What a digit is worth, if the byte is one.
#[tactic(auto, using(crate::proofs::HexDigits::capital_worths))]
pub fn worth(b: u8) -> Option<u8>
    ensures { IsDigit b result }
{
    match b {
        b'0'..=b'9' => Some(b - b'0'),
        b'A'..=b'F' => Some(b - b'A' + 10),
        _ => None,
    }
}

pub fn is_capital(b: u8) -> bool
    ensures { result ≡ is_capital b }
{
    worth(b).is_some()
}

// The byte of two digits, the higher first. Other bytes tell some byte, too.
pub fn two(d: u8, e: u8) -> u8
    ensures { result ≡ two d e }
{
    let high = u32::from(worth(d).unwrap_or(16));
    let low = u32::from(worth(e).unwrap_or(16));
    let both = (high * 16 + low) % 256;
    both as u8
}
