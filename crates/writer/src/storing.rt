// A sheet's stored form, from its source and the tokens that the table holds: a line with the count in four
// digits, then a line for each token, two digits for each byte of it. How long that is is known before a byte is
// written.
ghost use Rattle.std.specs.Prelude.{[], ◌∷◌, ◌≡◌, ◌+◌, ◌≤◌, ◌<◌, length};
ghost use Rattle.std.proofs.Math.Seq.{slice};
ghost use Rattle.language.specs.Stored as form;
ghost use Rattle.language.specs.Stored.{hex, COUNT, count_line};
ghost use Rattle.writer.specs.Texts.{Put, Front, Spanned, Writable};
ghost use Rattle.writer.specs.Forms.{HexRoom, LineRoom, token_line, form_of, form_long, StoresOut};

use layout::token;

// The digit that is worth so much.
fn capital(worth: u8) -> u8
    requires { worth < 16 }
    ensures { result ≡ form.capital worth }
{
    if worth < 10 {
        b'0' + worth
    } else {
        b'A' + (worth - 10)
    }
}

// Puts the two digits of a byte into `out`, and answers where they end there.
fn put_byte(byte: u8, out: &mut [u8], at: usize) -> usize
    requires { at + 2 ≤ length out.old }
    ensures { Put out.old out.new (hex (byte ∷ [])) at result }
{
    out[at] = capital(byte / 16);
    out[at + 1] = capital(byte % 16);
    at + 2
}

// Puts the digits of the source's bytes from one place up to another.
fn put_hex(source: &[u8], from: usize, to: usize, out: &mut [u8], at: usize) -> usize
    requires { HexRoom (length source.now) from to (length out.old) at }
    ensures { Put out.old out.new (hex (slice from to source.now)) at result }
{
    let mut end = at;
    for i in from..to {
        end = put_byte(source[i], out, end);
    }
    end
}

// Puts the line of token i, and answers where the next one is to go.
fn put_line(
    source: &[u8],
    table: &[u32],
    count: usize,
    i: usize,
    out: &mut [u8],
    at: usize,
) -> usize
    requires { LineRoom (length source.now) table.now count i (length out.old) at }
    ensures { Put out.old out.new (token_line source.now table.now i) at result }
{
    let from = token::place(table, i) as usize;
    let to = token::end(table, i) as usize;
    let end = put_hex(source, from, to, out, at);
    out[end] = b'\n';
    end + 1
}

// Puts the first line, which tells the count.
fn put_count(count: usize, out: &mut [u8]) -> usize
    requires { (count ≤ COUNT) × (5 ≤ length out.old) }
    ensures { Put out.old out.new (count_line count) 0 result }
{
    let high = put_byte((count / 256) as u8, out, 0);
    let end = put_byte((count % 256) as u8, out, high);
    out[end] = b'\n';
    end + 1
}

// Puts the first line and those of all tokens.
fn put_form(source: &[u8], table: &[u32], count: usize, out: &mut [u8])
    requires { Spanned (length source.now) table.now count × (form_long table.now count ≤ length out.old) }
    ensures { Front (form_of source.now table.now count) out.old out.new }
{
    let mut at = put_count(count, out);
    for i in 0..count {
        at = put_line(source, table, count, i, out, at);
    }
}

// The stored form of the source's tokens, at the front of `out`. A token has twice its bytes there and LF, where
// the text that is written has its bytes and one behind them. None where it is longer than it may be, and nothing was
// written.
pub fn store(source: &[u8], table: &[u32], count: usize, out: &mut [u8]) -> Option<usize>
    requires { Writable source.now table.now count }
    ensures { StoresOut source.now table.now count out.old out.new result }
{
    let long = crate::measure(table, count) * 2 - count + 5;
    if out.len() < long {
        return None;
    }
    put_form(source, table, count, out);
    Some(long)
}
