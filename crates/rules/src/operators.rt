// What a node asks of its children's types, once all of them are known.
ghost use Rattle.std.specs.Prelude.{◌≡◌, ◌≤◌, length};
ghost use Rattle.language.specs.Sizes.{TABLE};
ghost use Rattle.rules.specs.Sight.{Rowed};
ghost use Rattle.rules.specs.Asked.{Children, Constant, AsksOne, AsksTwo, AsksIf, AsksCall, Prefixed, Fetched, Referred};
ghost use Rattle.rules.specs.Asked.{Between, Alike, Assigns, Follows, Repeats, Matches, Operand, Result};
ghost use Rattle.rules.specs.Asked.{Bounded, AsksFor};

use crate::sight::Callee;
use crate::{Fault, need};
use language::kinds;
use layout::{rows, types};
use numbers::Reason;

// The operators before their operand.
const NEGATE: u32 = rows::PREFIX + kinds::MINUS;

const DENY: u32 = rows::PREFIX + kinds::NOT;

const FETCH: u32 = rows::PREFIX + kinds::BANG;

// How many children a node has; a call's arguments are not counted, nor are the parts of a `for`.
pub fn children(kind: u32) -> usize
    ensures { Children kind result }
{
    match kind {
        kinds::LPAR | kinds::LBRACE | rows::PREFIX.. => 1,
        kinds::IF => 3,
        kinds::LET | kinds::WHILE | kinds::PLUS..kinds::FLOAT_NUMBER => 2,
        // A number with a point, a call or a `for`: these kinds come last, behind the words.
        _ => 0,
    }
}

// The type of a number, with a point or without, `true`, `false` or `tt`.
pub fn constant(kind: u32) -> u32
    ensures { Constant kind result }
{
    match kind {
        kinds::NUMBER => types::INT,
        kinds::FLOAT_NUMBER => types::FLOAT,
        kinds::TT => types::UNIT,
        _ => types::BOOL,
    }
}

// An operand that must be of one type, which is the result's too.
fn alike(found: u32, wanted: u32, at: u32) -> Result<u32, Fault>
    ensures { Alike found wanted at result }
{
    need(found == wanted, Reason::WrongOperand, at)?;
    Ok(wanted)
}

// What a reference holds.
fn fetched(found: u32, at: u32) -> Result<u32, Fault>
    ensures { Fetched found at result }
{
    need(types::REF < found, Reason::WrongOperand, at)?;
    Ok(found - types::REF)
}

// A reference to it.
fn referred(found: u32, at: u32) -> Result<u32, Fault>
    ensures { Referred found at result }
{
    need(found < types::FULL, Reason::TooManyRefs, at)?;
    Ok(found + types::REF)
}

fn unary(kind: u32, found: u32, at: u32) -> Result<u32, Fault>
    ensures { Prefixed kind found at result }
{
    match kind {
        NEGATE => alike(found, types::INT, at),
        DENY => alike(found, types::BOOL, at),
        FETCH => fetched(found, at),
        _ => referred(found, at),
    }
}

// A node's answer once its one child is typed. A Group has its inside's type, and so has a Block.
pub fn after_child(kind: u32, found: u32, at: u32) -> Result<u32, Fault>
    ensures { AsksOne kind found at result }
{
    if kind < rows::PREFIX {
        return Ok(found);
    }
    unary(kind, found, at)
}

// The type of both operands of an operator whose first has this type; `:=` takes two types. Arithmetic and `<`
// are for ints, and for floats where the first is one, so that no two types mix.
fn operand(kind: u32, first: u32) -> u32
    ensures { Operand kind first result }
{
    match kind {
        kinds::AND | kinds::OR => types::BOOL,
        kinds::EQUAL => types::INT,
        _ if first == types::FLOAT => types::FLOAT,
        _ => types::INT,
    }
}

// The type of its result: arithmetic gives what it takes.
fn result(kind: u32, first: u32) -> u32
    ensures { Result kind first result }
{
    if kind < kinds::AND {
        first
    } else {
        types::BOOL
    }
}

// What is assigned to a cell must have the type of what the cell holds.
fn assigned(first: u32, second: u32, at: u32) -> Result<u32, Fault>
    ensures { Assigns first second at result }
{
    let fits = types::REF < first && first - types::REF == second;
    need(fits, Reason::WrongOperands, at)?;
    Ok(types::UNIT)
}

// Both operands of an operator must be of the type that it takes.
fn binary(kind: u32, first: u32, second: u32, at: u32) -> Result<u32, Fault>
    ensures { Between kind first second at result }
{
    if kind == kinds::BECOMES {
        return assigned(first, second, at);
    }
    let wanted = operand(kind, first);
    need(
        first == wanted && second == wanted,
        Reason::WrongOperands,
        at,
    )?;
    Ok(result(kind, first))
}

// `;` wants its left side to be of type unit.
fn follow(first: u32, second: u32, at: u32) -> Result<u32, Fault>
    ensures { Follows first second at result }
{
    need(first == types::UNIT, Reason::NotUnit, at)?;
    Ok(second)
}

// `while` wants a bool, and a body of type unit.
fn repeat(condition: u32, body: u32, at: u32) -> Result<u32, Fault>
    ensures { Repeats condition body at result }
{
    need(condition == types::BOOL, Reason::NotBool, at)?;
    need(body == types::UNIT, Reason::NotUnit, at)?;
    Ok(types::UNIT)
}

// A node's answer once its two children are typed.
pub fn after_children(kind: u32, first: u32, second: u32, at: u32) -> Result<u32, Fault>
    ensures { AsksTwo kind first second at result }
{
    match kind {
        kinds::SEMI => follow(first, second, at),
        kinds::WHILE => repeat(first, second, at),
        _ => binary(kind, first, second, at),
    }
}

// `if` wants a bool, and branches of one type.
pub fn branches(condition: u32, first: u32, second: u32, at: u32) -> Result<u32, Fault>
    ensures { AsksIf condition first second at result }
{
    need(condition == types::BOOL, Reason::NotBool, at)?;
    need(first == second, Reason::BranchesDiffer, at)?;
    Ok(first)
}

// Will bounds do, so many, which are all ints or not? There are a start and an end, and maybe a step.
fn bounded(count: usize, ints: bool) -> bool
    ensures { Bounded count ints result }
{
    match count {
        2 | 3 => ints,
        _ => false,
    }
}

// `for` wants bounds that will do, and a body of type unit.
pub fn counted(count: usize, ints: bool, body: u32, at: u32) -> Result<u32, Fault>
    ensures { AsksFor count ints body at result }
{
    need(bounded(count, ints), Reason::NotInt, at)?;
    need(body == types::UNIT, Reason::NotUnit, at)?;
    Ok(types::UNIT)
}

// A call that has so many arguments, of a function that takes so many and gives this result.
fn matched(arity: usize, res: u32, count: usize, suited: bool, at: u32) -> Result<u32, Fault>
    ensures { Matches arity res count suited at result }
{
    need(count == arity, Reason::WrongNumber, at)?;
    need(suited, Reason::WrongArgument, at)?;
    Ok(res)
}

// A call asks whether its callee is in sight, takes as many arguments, and these.
pub fn call(
    table: &[u32],
    callee: Callee,
    count: usize,
    suited: bool,
    at: u32,
) -> Result<u32, Fault>
    requires { (TABLE ≤ length table.now) × Rowed table.now callee }
    ensures { AsksCall table.now callee count suited at result }
{
    match callee {
        Callee::Function(row) => {
            let arity = rows::link(table, row, rows::ARITY);
            let result = rows::word(table, row, rows::RESULT);
            matched(arity, result, count, suited, at)
        }
        Callee::Putchar => matched(1, types::INT, count, suited, at),
        Callee::Nobody => Err(Fault {
            why: Reason::NoFunction,
            place: at,
        }),
    }
}
