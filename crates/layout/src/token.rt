// The tokens of a sheet in table memory.
ghost use Rattle.std.specs.Prelude.{◌≡◌, ◌+◌, ◌*◌, ◌≤◌, ◌<◌, length};
ghost use Rattle.language.specs.Sizes.{TOKENS, TABLE};
ghost use Rattle.layout.specs.Table.{SPANS, token_end, token_place, token_high, token_value};
ghost use Rattle.layout.specs.Table.{kind_of, put_token};

// Where a token begins and where it ends share a word.
const SPANS: u32 = 65536;

// The kind of a token, PAST where there is none.
#[tactic(auto, unfolding(crate::specs::Table::kind_of))]
pub fn kind(table: &[u32], count: usize, at: usize) -> u32
    requires { (TABLE ≤ length table.now) × (count ≤ TOKENS) }
    ensures { result ≡ kind_of table.now count at }
{
    if at < count { table[4 * at] } else { 0 }
}

// Where a token begins, in bytes.
pub fn place(table: &[u32], at: usize) -> u32
    requires { (TABLE ≤ length table.now) × (at < TOKENS) }
    ensures { result ≡ token_place table.now at }
{
    table[4 * at + 1] % SPANS
}

// The byte behind a token's last.
pub fn end(table: &[u32], at: usize) -> u32
    requires { (TABLE ≤ length table.now) × (at < TOKENS) }
    ensures { result ≡ token_end table.now at }
{
    table[4 * at + 1] / SPANS
}

// A number's value, a name's number, or the low half of a float number's bits.
pub fn value(table: &[u32], at: usize) -> u32
    requires { (TABLE ≤ length table.now) × (at < TOKENS) }
    ensures { result ≡ token_value table.now at }
{
    table[4 * at + 3]
}

// The high half of a float number's bits, else 0.
pub fn high(table: &[u32], at: usize) -> u32
    requires { (TABLE ≤ length table.now) × (at < TOKENS) }
    ensures { result ≡ token_high table.now at }
{
    table[4 * at + 2]
}

#[tactic(auto, unfolding(crate::specs::Table::put_token))]
pub fn put(table: &mut [u32], at: usize, kind: u32, place: u32, end: u32, high: u32, value: u32)
    requires { (TABLE ≤ length table.old) × (at < TOKENS) × (place < SPANS) × (end < SPANS) }
    ensures { table.new ≡ put_token table.old at kind place end high value }
{
    let w = 4 * at;
    table[w] = kind;
    table[w + 1] = SPANS * end + place;
    table[w + 2] = high;
    table[w + 3] = value;
}
