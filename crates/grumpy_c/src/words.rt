// Values and counts as words, and back from them; words put into lent memory.
ghost use Rattle.std.specs.Prelude.{◌≡◌, ◌+◌, ◌≤◌, ◌++◌, length};
ghost use Rattle.std.specs.Int.{w64};
ghost use Rattle.std.proofs.Common.{of_z};
ghost use Rattle.language.specs.Meaning.{value_number};
ghost use Rattle.layout.specs.Values.{meant};
ghost use Rattle.grumpy_c.specs.Words.{with_front, count_in, nine_counts, nine};

use layout::floats;
use layout::values::Value;

// A number of 32 bits; what a larger one is read as is said beside it.
#[tactic(auto, unfolding(crate::specs::Words::count_in))]
pub fn count(w: u64, larger: u32) -> u32
    ensures { result ≡ count_in larger w }
{
    u32::try_from(w).unwrap_or(larger)
}

// The counts of nine stops, from word k on.
pub fn counts(words: &[u64], k: usize, larger: u32) -> [u32; 9]
    requires { k + 9 ≤ length words.now }
    ensures { result ≡ nine_counts larger words.now k }
{
    let mut stops = [0; 9];
    for i in 0..9 {
        stops[i] = count(words[k + i], larger);
    }
    stops
}

// The words at the front; those behind them are left alone.
#[tactic(auto, unfolding(crate::specs::Words::with_front))]
pub fn put(words: &mut [u64], front: &[u64])
    requires { length front.now ≤ length words.old }
    ensures { words.new ≡ with_front words.old front.now }
{
    // A loop: `copy_from_slice` of the library is compiled for addresses of 64 bits alone.
    for i in 0..front.len() {
        words[i] = front[i];
    }
}

// A loop: what `map` makes of an array was not shown to be these nine.
fn wide(stops: [u32; 9]) -> [u64; 9]
    ensures { result ≡ nine stops }
{
    let mut wide = [0; 9];
    for (i, n) in stops.iter().enumerate() {
        wide[i] = *n as u64;
    }
    wide
}

// The counts of nine stops, and what stands before and behind them, at the front.
pub fn put_around(words: &mut [u64], before: &[u64], stops: [u32; 9], behind: &[u64])
    requires { length before.now + (9 + length behind.now) ≤ length words.old }
    ensures { words.new ≡ with_front words.old (before.now ++ (nine stops ++ behind.now)) }
{
    let n = before.len();
    put(words, before);
    put(&mut words[n..], &wide(stops));
    put(&mut words[n + 9..], behind);
}

// The word that is reported for a value.
#[tactic(auto, using(std::proofs::lemmas::Int::ints), unfolding(language::specs::Meaning::value_number))]
pub fn word(v: Value) -> u64
    ensures { result ≡ of_z w64 (value_number (meant v)) }
{
    match v {
        Value::Int(z) => i64::from(z).cast_unsigned(),
        Value::Float(x) => floats::bits(x),
        Value::Flag(b) => u64::from(b),
        Value::Nothing => 0,
        Value::Cell(n) => u64::from(n),
    }
}
