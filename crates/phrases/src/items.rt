// Seq, Tail, Let and Item. These readers and those of `loops`, `tiers` and `names` call each other. Each call
// goes to a later token, or to a lower rule at the same one. The token and the first free row go as two
// numbers: as one struct with a method for what is further on they were tried, and took a quarter more stack
// on x86-64 and half as much again on ARM. The table is lent memory with a fixed layout, so it and the number of
// its tokens go beside them, and each reader requires room in it.
ghost use Rattle.std.specs.Prelude.{◌≡◌, ◌≤◌};
ghost use Rattle.language.specs.Tokens.{LET, IF, WHILE};
ghost use Rattle.layout.specs.Table.{kind_of};
ghost use Rattle.phrases.specs.Parts.{Room, Yields, Halts, Seq, Clause, Let, Until};

use crate::loops::for_in;
use crate::parts::{Read, around, choice, pair};
use crate::tiers::assign;
use language::kinds;
use layout::token::kind;

// A Seq and the token `mark` behind it, at which it stops.
#[cycle(phrases)]
pub fn until(table: &mut [u32], count: usize, at: usize, free: usize, mark: u32) -> Read
    requires room { Room count table.old at free }
    requires le_mark { 1 ≤ mark }
    ensures { Halts (Until mark at) count table.old at free result table.new }
{
    let read = seq(table, count, at, free);
    let Ok(whole) = read.part() else {
        return read;
    };
    if kind(table, count, whole.next) == mark {
        read
    } else {
        Read::failed(whole.next)
    }
}

// `;` associates to the right. Behind a Tail there is none: the body of its let has taken it.
#[cycle(phrases)]
#[tactic(auto, using(crate::proofs::SeqLaws::seq_ways))]
pub fn seq(table: &mut [u32], count: usize, at: usize, free: usize) -> Read
    requires { Room count table.old at free }
    ensures { Yields (Seq at) count table.old at free result table.new }
{
    let read = clause(table, count, at, free);
    let Ok(first) = read.part() else {
        return read;
    };
    if kind(table, count, first.next) != kinds::SEMI {
        return read;
    }
    let rest = seq(table, count, first.next + 1, first.free);
    pair(table, kinds::SEMI, first.next, first.root, rest)
}

// A Tail or an Item, which the first token does not tell: an `if` is a Tail where its last part is one.
#[cycle(phrases)]
#[tactic(auto, using(crate::proofs::ItemLaws::clause_ways))]
fn clause(table: &mut [u32], count: usize, at: usize, free: usize) -> Read
    requires { Room count table.old at free }
    ensures { Yields (Clause at) count table.old at free result table.new }
{
    match kind(table, count, at) {
        kinds::LET => let_in(table, count, at, free),
        kinds::IF => if_else(table, count, at, free),
        kinds::WHILE => while_block(table, count, at, free),
        kinds::FOR => for_in(table, count, at, free),
        _ => assign(table, count, at, free),
    }
}

// At a `let`, whose body is a Seq, and so reaches as far as one can.
#[cycle(phrases)]
fn let_in(table: &mut [u32], count: usize, at: usize, free: usize) -> Read
    requires room { Room count table.old at free }
    requires at_value { kind_of table.old count at ≡ LET }
    ensures { Yields (Let at) count table.old at free result table.new }
{
    if kind(table, count, at + 1) != kinds::NAME {
        return Read::failed(at + 1);
    }
    if kind(table, count, at + 2) != kinds::IS {
        return Read::failed(at + 2);
    }
    let read = until(table, count, at + 3, free, kinds::IN);
    let Ok(value) = read.part() else {
        return read;
    };
    let body = seq(table, count, value.next + 1, value.free);
    pair(table, kinds::LET, at, value.root, body)
}

// At an `if`, whose last part is a Tail or an Item: a `;` is taken by the let in it, or ends it.
#[cycle(phrases)]
fn if_else(table: &mut [u32], count: usize, at: usize, free: usize) -> Read
    requires room { Room count table.old at free }
    requires at_value { kind_of table.old count at ≡ IF }
    ensures { Yields (Clause at) count table.old at free result table.new }
{
    let read = until(table, count, at + 1, free, kinds::THEN);
    let Ok(test) = read.part() else {
        return read;
    };
    let read_yes = until(table, count, test.next + 1, test.free, kinds::ELSE);
    let Ok(yes) = read_yes.part() else {
        return read_yes;
    };
    let no = clause(table, count, yes.next + 1, yes.free);
    choice(table, at, test.root, yes.root, no)
}

// At a `while`, whose body is a Block of its own.
#[cycle(phrases)]
fn while_block(table: &mut [u32], count: usize, at: usize, free: usize) -> Read
    requires room { Room count table.old at free }
    requires at_value { kind_of table.old count at ≡ WHILE }
    ensures { Yields (Clause at) count table.old at free result table.new }
{
    let read = until(table, count, at + 1, free, kinds::LBRACE);
    let Ok(test) = read.part() else {
        return read;
    };
    let body = until(table, count, test.next + 1, test.free, kinds::RBRACE);
    let block = around(table, kinds::LBRACE, test.next, body);
    pair(table, kinds::WHILE, at, test.root, block)
}
