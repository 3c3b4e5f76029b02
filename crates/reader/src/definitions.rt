// Parameters, functions and the program.
ghost use Rattle.std.specs.Prelude.{◌≡◌, ◌≤◌, ◌<◌, length};
ghost use Rattle.language.specs.Tokens.{DEF};
ghost use Rattle.layout.specs.Table.{kind_of};
ghost use Rattle.phrases.specs.Parts.{Room};
ghost use Rattle.reader.specs.Definitions.{ParamsAnswer, DefAnswer, ProgramAnswer};
ghost use Rattle.reader.specs.Definitions.{Params, Formals, Function, Sequel};

use crate::types::{result, type_at};
use language::kinds;
use layout::rows::PARAMETER;
use layout::token::kind;
use layout::{functions, rows};
use phrases::items::{seq, until};
use phrases::parts::{Failed, around};

// The token behind what was laid, and the first free row.
#[derive(Clone, Copy)]
pub struct Laid {
    pub next: usize,
    pub free: usize,
}

// How many functions there are, the row of the last expression, and the token behind it.
#[derive(Clone, Copy)]
pub struct Whole {
    pub defs: usize,
    pub root: u32,
    pub next: usize,
}

// A row for each parameter.
fn params(table: &mut [u32], count: usize, at: usize, free: usize) -> Result<Laid, Failed>
    requires { Room count table.old at free }
    ensures { ParamsAnswer (Params at) count table.old at free result table.new }
{
    if kind(table, count, at) != kinds::NAME {
        return Err(Failed { at });
    }
    if kind(table, count, at + 1) != kinds::COLON {
        return Err(Failed { at: at + 1 });
    }
    let named = type_at(table, count, at + 2)?;
    rows::put(table, free, PARAMETER, at as u32, named.number, 0, 0);
    if kind(table, count, named.next) == kinds::COMMA {
        return params(table, count, named.next + 1, free + 1);
    }
    Ok(Laid {
        next: named.next,
        free: free + 1,
    })
}

// Parameters or none, and the `)`.
fn formals(table: &mut [u32], count: usize, at: usize, free: usize) -> Result<Laid, Failed>
    requires { Room count table.old at free }
    ensures { ParamsAnswer (Formals at) count table.old at free result table.new }
{
    if kind(table, count, at) == kinds::RPAR {
        return Ok(Laid { next: at + 1, free });
    }
    let list = params(table, count, at, free)?;
    if kind(table, count, list.next) != kinds::RPAR {
        return Err(Failed { at: list.next });
    }
    Ok(Laid {
        next: list.next + 1,
        free: list.free,
    })
}

// A function, at its `def`: its row, then its parameters', then its body's. Its row is kept free until its body's
// root is known.
fn function(table: &mut [u32], count: usize, at: usize, free: usize) -> Result<Laid, Failed>
    requires room { Room count table.old at free }
    requires at_value { kind_of table.old count at ≡ DEF }
    ensures { DefAnswer (Function at) count table.old at free result table.new }
{
    if kind(table, count, at + 1) != kinds::NAME {
        return Err(Failed { at: at + 1 });
    }
    if kind(table, count, at + 2) != kinds::LPAR {
        return Err(Failed { at: at + 2 });
    }
    let list = formals(table, count, at + 3, free + 1)?;
    let named = result(table, count, list.next)?;
    let inside = until(table, count, named.next + 1, list.free, kinds::RBRACE);
    let body = around(table, kinds::LBRACE, named.next, inside).part()?;
    let arity = (list.free - free - 1) as u32;
    rows::put(
        table,
        free,
        kinds::DEF,
        at as u32,
        arity,
        named.number,
        body.root,
    );
    Ok(Laid {
        next: body.next,
        free: body.free,
    })
}

// Functions, then the last expression, where `defs` functions are behind.
pub fn program(
    table: &mut [u32],
    count: usize,
    at: usize,
    free: usize,
    defs: usize,
) -> Result<Whole, Failed>
    requires room { Room count table.old at free }
    requires defs_le_at { defs ≤ at }
    ensures { ProgramAnswer (Sequel at) count table.old free defs result table.new }
{
    if kind(table, count, at) == kinds::DEF {
        let first = function(table, count, at, free)?;
        functions::put(table, defs, free as u32);
        return program(table, count, first.next, first.free, defs + 1);
    }
    let main = seq(table, count, at, free).part()?;
    Ok(Whole {
        defs,
        root: main.root,
        next: main.next,
    })
}
