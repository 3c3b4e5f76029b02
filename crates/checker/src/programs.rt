// Functions in their order, then the last expression. A function is checked whole before the next: how
// many there are, its name, its parameters one by one, its result's type, its body.
ghost use Rattle.std.specs.Prelude.{◌+◌, ◌<◌};
ghost use Rattle.checker.specs.Checked.{Checkable};
ghost use Rattle.checker.specs.Ruled.{ParameterAt, Bound, Headings, Taken, Headlines};
ghost use Rattle.checker.specs.Ruled.{Fresh, Bodied, Fitting, Listed, Ruled, Concluded};

use language::{FUNCTIONS, PARAMETERS};
use layout::{Held, functions, rows, token, types, variables};
use numbers::Reason;
use phrase_types::expressions::{Sight, type_at};
use rules::sight::{Callee, called, variable};
use rules::{Fault, need};

// Parameter k becomes variable k: there is room for it, its name is new, its type allowed.
fn parameter(table: &mut [u32], row: usize, k: usize) -> Result<(), Fault>
    requires { ParameterAt table.old row }
    ensures { Bound table.old table.new row k result }
{
    let at = rows::word(table, row, rows::OWN);
    need(k < PARAMETERS, Reason::TooManyParameters, at)?;
    let token = rows::link(table, row, rows::OWN);
    let name = token::value(table, token);
    let before = variable(table, k, name);
    need(before.is_none(), Reason::ParameterTwice, at)?;
    let number = rows::word(table, row, rows::TYPE);
    need(number < types::OVER, Reason::TooManyRefs, at)?;
    variables::put(table, k, name, number);
    Ok(())
}

// A body sees its function's parameters, and no variable of anybody else.
fn parameters(table: &mut [u32], row: usize) -> Result<(), Fault>
    requires { Headings table.old row }
    ensures { Taken table.old table.new row result }
{
    let count = rows::link(table, row, rows::ARITY);
    for k in 0..count {
        parameter(table, row + k + 1, k)?;
    }
    Ok(())
}

// There is room for function k, and its name is new: no function before it has it, nor has `putchar`.
fn fresh(table: &[u32], k: usize, row: usize) -> Result<(), Fault>
    requires { Headlines table.now k row }
    ensures { Fresh table.now k result }
{
    let at = rows::word(table, row, rows::OWN);
    need(k < FUNCTIONS, Reason::TooManyFunctions, at)?;
    let name = functions::name(table, k);
    match called(table, k, name) {
        Callee::Nobody => Ok(()),
        _ => Err(Fault {
            why: Reason::FunctionTwice,
            place: at + 1,
        }),
    }
}

// Its result's type is allowed, and its body, which sees itself, has that type.
fn body(table: &mut [u32], k: usize, row: usize) -> Result<(), Fault>
    requires { Bodied table.old k row }
    ensures { Fitting table.old table.new k row result }
{
    let at = rows::word(table, row, rows::OWN);
    let count = rows::link(table, row, rows::ARITY);
    let result = rows::word(table, row, rows::RESULT);
    need(result < types::OVER, Reason::TooManyRefs, at)?;
    let root = rows::link(table, row, rows::BODY);
    let sight = Sight {
        seen: k + 1,
        binds: count,
    };
    let found = type_at(table, root, sight)?;
    need(found == result, Reason::WrongBody, at)
}

// Function k, when those before it are right.
fn function(table: &mut [u32], k: usize) -> Result<(), Fault>
    requires { Listed table.old k }
    ensures { Ruled table.old table.new k result }
{
    let row = functions::row(table, k);
    fresh(table, k, row)?;
    parameters(table, row)?;
    body(table, k, row)
}

// The whole program.
pub fn program(table: &mut [u32], program: Held) -> Result<u32, Fault>
    requires { Checkable table.old program }
    ensures { Concluded table.old table.new program result }
{
    for k in 0..program.functions {
        function(table, k)?;
    }
    let sight = Sight {
        seen: program.functions,
        binds: 0,
    };
    type_at(table, program.root, sight)
}
