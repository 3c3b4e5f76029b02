// The pay profile of a program that a table holds: its first endless node, or how many units it can use.
#![tactic(auto)]

ghost use Rattle.std.specs.Prelude.{◌≡◌};
ghost use Rattle.profiles.specs.Profiled.{Countable, Profiled, Reckoned, told, Bodied, BodyPassed};

mod passes;
mod shares;

use language::NODES;
use layout::{HELD, Held, TABLE_END, VARIABLES_AT, functions, memory, rows};

// Why a program's units are not counted: the token of its first endless node, or that they are too many.
#[derive(Clone, Copy)]
pub enum Uncounted {
    EndlessNode(u32),
    ManyUnits,
}

// What the share of the body of function k comes to.
fn body(table: &mut [u32], k: usize) -> u32
    requires { Bodied table.old k }
    ensures { BodyPassed table.old table.new k result }
{
    let name = functions::name(table, k);
    let row = functions::row(table, k);
    let last = rows::link(table, row, rows::BODY);
    passes::pass(table, last, name, k)
}

// The answer that a share is.
#[tactic(auto, unfolding(crate::specs::Profiled::told))]
fn told(share: u32) -> Result<u32, Uncounted>
    ensures { result ≡ told share }
{
    match share {
        0..shares::FULL => Ok(share),
        shares::FULL => Err(Uncounted::ManyUnits),
        _ => Err(Uncounted::EndlessNode(share - shares::FULL - 1)),
    }
}

// Functions in their order, then the last expression, in which no function is the one that is defined. The
// variables' words hold shares in the end.
fn reckon(table: &mut [u32], program: Held) -> Result<u32, Uncounted>
    requires { Countable table.old program }
    ensures { Reckoned table.old table.new program result }
{
    for k in 0..program.functions {
        let share = body(table, k);
        if shares::FULL < share {
            return told(share);
        }
        shares::put(table, NODES + k, share);
    }
    let last = passes::pass(table, program.root, HELD, program.functions);
    told(last)
}

// How many units the program can use. The variables' words are cleared.
pub fn profile(table: &mut [u32], program: Held) -> Result<u32, Uncounted>
    requires { Countable table.old program }
    ensures { Profiled table.old table.new program result }
{
    let answer = reckon(table, program);
    memory::clear(table, VARIABLES_AT, TABLE_END);
    answer
}
