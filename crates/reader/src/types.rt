// Types, which a row holds as their numbers. What is required here is what `layout::token::kind` does of a table,
// which is lent memory with a fixed layout.
ghost use Rattle.std.specs.Prelude.{◌≡◌, ◌+◌, ◌*◌, ◌≤◌, length};
ghost use Rattle.language.specs.Sizes.{TOKENS, TABLE};
ghost use Rattle.layout.specs.Types.{REF, PLAIN};
ghost use Rattle.reader.specs.Definitions.{TypeAnswer, RefsAnswer, Typeful, Resulting, basic_number};

use language::kinds;
use layout::token::kind;
use layout::types;
use phrases::parts::Failed;

// A type's number, and the token behind it.
#[derive(Clone, Copy)]
pub struct Named {
    pub number: u32,
    pub next: usize,
}

// The number of the type that a word stands for; none for any other token.
#[tactic(auto, unfolding(language::specs::Tokens::entry, language::specs::Meaning::type_number))]
fn basic(k: u32) -> Option<u32>
    ensures { result ≡ basic_number k }
{
    match k {
        kinds::INT => Some(types::INT),
        kinds::BOOL => Some(types::BOOL),
        kinds::UNIT => Some(types::UNIT),
        kinds::FLOAT => Some(types::FLOAT),
        _ => None,
    }
}

// Each `ref` behind a type.
fn refs(table: &[u32], count: usize, at: usize, number: u32) -> Named
    requires { (TABLE ≤ length table.now) × (count ≤ TOKENS) × (at ≤ count) × (number ≤ REF * at + PLAIN) }
    ensures { RefsAnswer count table.now at number result }
{
    if kind(table, count, at) == kinds::REF {
        refs(table, count, at + 1, types::REF + number)
    } else {
        Named { number, next: at }
    }
}

// A word, and each `ref` behind it.
pub fn type_at(table: &[u32], count: usize, at: usize) -> Result<Named, Failed>
    requires { (TABLE ≤ length table.now) × (count ≤ TOKENS) × (at ≤ count) }
    ensures { TypeAnswer (Typeful at) count table.now (at + 1) (count + 1) result }
{
    match basic(kind(table, count, at)) {
        Some(number) => Ok(refs(table, count, at + 1, number)),
        None => Err(Failed { at }),
    }
}

// `:`, the type of a result, and the `{` behind it, at which it stops.
pub fn result(table: &[u32], count: usize, at: usize) -> Result<Named, Failed>
    requires { (TABLE ≤ length table.now) × (count ≤ TOKENS) × (at ≤ count) }
    ensures { TypeAnswer (Resulting at) count table.now (at + 2) count result }
{
    if kind(table, count, at) != kinds::COLON {
        return Err(Failed { at });
    }
    let named = type_at(table, count, at + 1)?;
    if kind(table, count, named.next) != kinds::LBRACE {
        return Err(Failed { at: named.next });
    }
    Ok(named)
}
