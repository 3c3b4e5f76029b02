// Clearing.
ghost use Rattle.std.specs.Prelude.{◌≡◌, ◌-◌, ◌≤◌, length};
ghost use Rattle.layout.specs.Table.{zeros};

// The words from one up to another become 0.
pub fn clear(words: &mut [u32], from: usize, to: usize)
    requires { (from ≤ to) × (to ≤ length words.old) }
    ensures { words.new ≡ zeros words.old from (to - from) }
{
    words[from..to].fill(0);
}
