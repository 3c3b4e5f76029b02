// Lent bytes that text is put into, part behind part. Where they have no more room the text is cut.
ghost use Rattle.std.specs.Prelude.{◌≡◌, ◌≤◌, [], ◌∷◌, length, take};

// The bytes, and how many of them are text.
#[derive(Drop)]
pub struct Page<'a> {
    out: &'a mut [u8],
    at: usize,
    ghost within: { at ≤ length out.now },
}

impl<'a> Page<'a> {
    ghost use Rattle.page.specs.Text.{Begins, Continues, Writes};

    // A page with nothing on it.
    pub fn on(out: &'a mut [u8]) -> Page<'a>
        ensures { Begins out.entry result }
    {
        Page { out, at: 0 }
    }

    // A page whose first bytes are text already, up to a place; one past their end counts as the end.
    pub fn after(out: &'a mut [u8], at: usize) -> Page<'a>
        ensures { Continues out.entry at result }
    {
        let at = at.min(out.len());
        Page { out, at }
    }

    // Puts a part behind what is there.
    pub fn put(&mut self, part: &[u8])
        ensures { Writes part.now self.old self.new }
    {
        let n = part.len().min(self.out.len() - self.at);
        let end = self.at + n;
        self.out[self.at..end].copy_from_slice(&part[..n]);
        self.at = end;
    }

    // Puts a byte behind what is there. Bytes that are shown are put one by one, and a part of one byte takes longer.
    pub(crate) fn put_byte(&mut self, b: u8)
        ensures { Writes (b ∷ []) self.old self.new }
    {
        if self.at < self.out.len() {
            self.out[self.at] = b;
            self.at += 1;
        }
    }

    // What was put so far.
    pub fn text(&self) -> &[u8]
        ensures { result.now ≡ take self.now.at self.now.out.now }
    {
        &self.out[..self.at]
    }
}
