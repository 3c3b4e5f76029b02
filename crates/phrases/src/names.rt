// Names and calls.
ghost use Rattle.std.specs.Prelude.{◌≡◌, ◌<◌};
ghost use Rattle.language.specs.Tokens.{NAME};
ghost use Rattle.layout.specs.Table.{kind_of};
ghost use Rattle.phrases.specs.Parts.{Room, Yields, YieldsAll, Atom, Closed};

use crate::items::seq;
use crate::parts::{Read, around, node, over, pair};
use language::kinds;
use layout::rows::{ARGUMENT, CALL};
use layout::token::kind;

// At a name, which is called where `(` stands behind it.
#[cycle(phrases)]
pub fn named(table: &mut [u32], count: usize, at: usize, free: usize) -> Read
    requires room { Room count table.old at free }
    requires at_value { kind_of table.old count at ≡ NAME }
    ensures { Yields (Atom at) count table.old at free result table.new }
{
    if kind(table, count, at + 1) != kinds::LPAR {
        return node(table, free, at + 1, kinds::NAME, at, 0, 0, 0);
    }
    if kind(table, count, at + 2) == kinds::RPAR {
        return node(table, free, at + 3, CALL, at, 0, 0, 0);
    }
    let list = arguments(table, count, at + 2, free, at);
    over(table, CALL, at, list)
}

// The arguments of the call at `own`, up to the `)` and with it. An argument's row comes behind the
// rows of those after it, and links to the first of them.
#[cycle(phrases)]
fn arguments(table: &mut [u32], count: usize, at: usize, free: usize, own: usize) -> Read
    requires room { Room count table.old at free }
    requires own_lt_count { own < count }
    ensures { YieldsAll (Closed at) own count table.old at free result table.new }
{
    let read = seq(table, count, at, free);
    let Ok(first) = read.part() else {
        return read;
    };
    match kind(table, count, first.next) {
        kinds::RPAR => around(table, ARGUMENT, own, read),
        kinds::COMMA => {
            let list = arguments(table, count, first.next + 1, first.free, own);
            pair(table, ARGUMENT, own, first.root, list)
        }
        _ => Read::failed(first.next),
    }
}
