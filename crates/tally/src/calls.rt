// The text of a call, as it is set under the book: `pay(70000,3)`.
ghost use Rattle.std.specs.Prelude.{◌∷◌, [], suc, ◌+◌, ◌^◌, ◌<◌, ◌≤◌, ◌≡◌, take};
ghost use Rattle.language.specs.Shift.{decimal_with, call_of, LARGEST_CALL};
ghost use Rattle.tally.specs.Calls.{OPENING, Shows, Longer};

// Its bytes are the first `len` of these; with two numbers of ten digits it has 26. It has no `Model`: what is copied
// has to give back all of its fields, also the bytes behind.
#[derive(Clone, Copy)]
pub struct Text {
    text: [u8; 26],
    len: usize,
    ghost room: { len ≤ 26 },
}

fn digit(n: u32) -> u8
    requires { n < 10 }
    ensures { result ≡ 48 + n }
{
    b'0' + n as u8
}

impl Text {
    // What every call begins with.
    fn opened() -> Text
        ensures { Shows result.text result.len OPENING 4 }
    {
        let mut text = [0; 26];
        text[..4].copy_from_slice(b"pay(");
        Text { text, len: 4 }
    }

    pub fn bytes(&self) -> &[u8]
        ensures { result.now ≡ take self.now.len self.now.text }
    {
        &self.text[..self.len]
    }

    fn put(&mut self, b: u8)
        requires { self.old.len < 26 }
        ensures { Longer self.old.text self.old.len (b ∷ []) 1 self.new.text self.new.len }
    {
        self.text[self.len] = b;
        self.len += 1;
    }

    // A number in decimal, with at most so many digits before its last: those come first, so it calls itself.
    fn decimal(&mut self, n: u32, more: usize)
        requires { (self.old.len + more < 26) × (n < 10 ^ suc more) }
        ensures { Longer self.old.text self.old.len (decimal_with more n) (suc more) self.new.text self.new.len }
    {
        if 10 <= n {
            self.decimal(n / 10, more - 1);
        }
        self.put(digit(n % 10));
    }
}

// Whatever the numbers are, also above the largest that can be written.
pub fn call(picks: u32, rate: u32) -> Text
    ensures { Shows result.text result.len (call_of record { picks = picks; rate = rate }) 26 }
{
    let mut text = Text::opened();
    text.decimal(picks, 9);
    text.put(b',');
    text.decimal(rate, 9);
    text.put(b')');
    text
}

// The longest of all, for which there has to be room under a book.
pub fn largest() -> Text
    ensures { Shows result.text result.len LARGEST_CALL 26 }
{
    call(2147483647, 2147483647)
}
