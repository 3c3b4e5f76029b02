// Counted loops.
ghost use Rattle.std.specs.Prelude.{◌≡◌, ◌<◌};
ghost use Rattle.language.specs.Tokens.{FOR};
ghost use Rattle.layout.specs.Table.{kind_of};
ghost use Rattle.phrases.specs.Parts.{Room, Yields, YieldsAll, For, Ends};

use crate::items::until;
use crate::operators::{LEVEL_OR, is_range};
use crate::parts::{Read, around, over, pair};
use crate::tiers::tier;
use language::kinds;
use layout::rows::ARGUMENT;
use layout::token::kind;

// At a `for`, whose row has the kind of the mark between its start and its end. These, and its step, are
// rows as the arguments of a call are.
#[cycle(phrases)]
pub fn for_in(table: &mut [u32], count: usize, at: usize, free: usize) -> Read
    requires room { Room count table.old at free }
    requires at_value { kind_of table.old count at ≡ FOR }
    ensures { Yields (For at) count table.old at free result table.new }
{
    if kind(table, count, at + 1) != kinds::NAME {
        return Read::failed(at + 1);
    }
    if kind(table, count, at + 2) != kinds::IN {
        return Read::failed(at + 2);
    }
    let read = tier(table, count, at + 3, free, LEVEL_OR);
    let Ok(start) = read.part() else {
        return read;
    };
    let mark = kind(table, count, start.next);
    if !is_range(mark) {
        return Read::failed(start.next);
    }
    let rest = ends(table, count, start.next, start.free, at);
    let read_list = pair(table, ARGUMENT, at, start.root, rest);
    let Ok(list) = read_list.part() else {
        return read_list;
    };
    if kind(table, count, list.next) != kinds::LBRACE {
        return Read::failed(list.next);
    }
    let body = until(table, count, list.next + 1, list.free, kinds::RBRACE);
    let block = around(table, kinds::LBRACE, list.next, body);
    pair(table, mark, at, list.root, block)
}

// Behind the mark at `at`, the end of the `for` at `own` and maybe, behind `by`, its step.
#[cycle(phrases)]
fn ends(table: &mut [u32], count: usize, at: usize, free: usize, own: usize) -> Read
    requires room { Room count table.old at free }
    requires at_lt_count { (at < count) × (own < count) }
    ensures { YieldsAll (Ends at) own count table.old at free result table.new }
{
    let read = tier(table, count, at + 1, free, LEVEL_OR);
    let Ok(end) = read.part() else {
        return read;
    };
    if kind(table, count, end.next) != kinds::BY {
        return over(table, ARGUMENT, own, read);
    }
    let step = tier(table, count, end.next + 1, end.free, LEVEL_OR);
    let last = over(table, ARGUMENT, own, step);
    pair(table, ARGUMENT, own, end.root, last)
}
