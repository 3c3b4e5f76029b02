// Pence as pounds and pence.
ghost use Rattle.page.specs.Money.{pounds_text};
ghost use Rattle.page.specs.Text.{Writes};

use crate::padded::padded;
use crate::pages::Page;

impl Page<'_> {
    // Puts pence as pounds and pence, 225 as `2.25`.
    pub fn pounds(&mut self, pence: u64)
        ensures { Writes (pounds_text pence) self.old self.new }
    {
        self.decimal(pence / 100);
        self.put(b".");
        padded::<2>(self, pence);
    }
}
