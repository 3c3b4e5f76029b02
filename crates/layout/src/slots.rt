// Slots of work memory: a key and a value. A cell has its birth number for a key.
ghost use Rattle.std.specs.Prelude.{◌≡◌, ◌+◌, ◌*◌, ◌≤◌, ◌<◌, length};
ghost use Rattle.language.specs.Sizes.{WORK};
ghost use Rattle.layout.specs.Slots.{TAGS, KEYS, key_at, value_at, put_slot};
ghost use Rattle.layout.specs.Values.{meant, Survives};

use crate::values;
use crate::values::{InWords, Value};

// A key and a tag share a word.
const TAGS: u32 = 8;

pub fn key(work: &[u32], base: usize, i: usize) -> u32
    requires { (base ≤ WORK) × (i ≤ WORK) × (base + 3 * i + 3 ≤ length work.now) }
    ensures { result ≡ key_at work.now base i }
{
    work[base + 3 * i] / TAGS
}

pub fn value(work: &[u32], base: usize, i: usize) -> Value
    requires { (base ≤ WORK) × (i ≤ WORK) × (base + 3 * i + 3 ≤ length work.now) }
    ensures { meant result ≡ value_at work.now base i }
{
    let at = base + 3 * i;
    values::from_words(work[at] % TAGS, work[at + 1], work[at + 2])
}

#[tactic(auto, unfolding(crate::specs::Slots::put_slot))]
pub fn put(work: &mut [u32], base: usize, i: usize, key: u32, v: Value)
    requires { (base ≤ WORK) × (i ≤ WORK) × (base + 3 * i + 3 ≤ length work.old) × (key ≤ KEYS) }
    ensures { (work.new ≡ put_slot work.old base i key v) × Survives v }
{
    let at = base + 3 * i;
    let InWords { tag, low, high } = values::words(v);
    work[at] = TAGS * key + tag;
    work[at + 1] = low;
    work[at + 2] = high;
}
