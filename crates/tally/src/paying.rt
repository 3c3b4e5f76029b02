// Whether some lines can have been paid a sum, a least and a largest. Nothing is believed of the three.
ghost use Rattle.std.specs.Prelude.{true, ◌&&◌, ◌≡◌, ◌≤◌, pos, ◌+ℤ◌, ◌*ℤ◌};
ghost use Rattle.std.specs.Int.Signed.{le_z};
ghost use Rattle.language.specs.Combining as Combining;
ghost use Rattle.language.specs.Meaning.{in_range};
ghost use Rattle.language.specs.Sizes as Sizes;

// The range of int.
const LOWEST: i64 = -2147483648;

const HIGHEST: i64 = 2147483647;

#[tactic(auto, using(std::proofs::lemmas::Int::ints), unfolding(language::specs::Meaning::in_range))]
// `machine` has the same test for its numbers; neither crate rests on the other.
fn is_int(z: i64) -> bool
    ensures { result ≡ in_range z }
{
    (LOWEST..=HIGHEST).contains(&z)
}

// Where nobody was paid there is nothing to tell.
#[tactic(auto, using(std::proofs::lemmas::Int::ints), unfolding(language::specs::Combining::payable, language::specs::Meaning::is_zero))]
fn nobody(sum: i64, least: i64, largest: i64) -> bool
    ensures { result ≡ Combining.payable 0 sum least largest }
{
    sum == 0 && least == 0 && largest == 0
}

// What one line and so many others come to, each of which has the same.
#[tactic(auto, using(std::proofs::lemmas::Int::ints))]
fn with_others(one: i64, others: u32, each: i64) -> i64
    requires { (in_range one ≡ true) × (in_range each ≡ true) × (others ≤ Sizes.LINES) }
    ensures { result ≡ one +ℤ pos others *ℤ each }
{
    one + i64::from(others) * each
}

// The sum is one of a line and so many others, of which one has the least and one the largest.
#[tactic(auto, using(std::proofs::lemmas::Int::ints))]
fn between(others: u32, sum: i64, least: i64, largest: i64) -> bool
    requires { (in_range least ≡ true) × (in_range largest ≡ true) × (others ≤ Sizes.LINES) }
    ensures { result ≡ (le_z (largest +ℤ pos others *ℤ least) sum && le_z sum (least +ℤ pos others *ℤ largest)) }
{
    with_others(largest, others, least) <= sum && sum <= with_others(least, others, largest)
}

#[tactic(auto, using(std::proofs::lemmas::Int::ints), unfolding(language::specs::Combining::payable))]
pub fn payable(n: u32, sum: i64, least: i64, largest: i64) -> bool
    requires { n ≤ Sizes.LINES }
    ensures { result ≡ Combining.payable n sum least largest }
{
    if n == 0 {
        return nobody(sum, least, largest);
    }
    is_int(least) && is_int(largest) && least <= largest && between(n - 1, sum, least, largest)
}
