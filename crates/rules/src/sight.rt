// What is in sight: the nearest variable of a name, the function that a call means, and what it wants.
// Names are compared by their numbers.
ghost use Rattle.std.specs.Prelude.{◌≡◌, ℕ, ◌+◌, ◌≤◌, ◌<◌, length};
ghost use Rattle.language.specs.Sizes.{TOKENS, TABLE};
ghost use Rattle.layout.specs.Functions.{Headed};
ghost use Rattle.rules.specs.Sight.{find_variable, callee_in, Rowed, wanted_in, Readable, expected_in};

use layout::{PUTCHAR, functions, rows, types, variables};

// Whom a call means: the function at a row, or the one that is there before all others.
#[derive(Clone, Copy)]
pub enum Callee {
    Function(usize),
    Putchar,
    Nobody,
}

// Who takes a list of expressions, each of some type: a callee its arguments, or a `for` its bounds. It is no option: a
// `for` is as much of a taker as a callee.
#[derive(Clone, Copy)]
pub enum Taker {
    Call(Callee),
    For,
}

// The type's number of the nearest of the first `binds` variables that has this name.
pub fn variable(table: &[u32], binds: usize, name: u32) -> Option<u32>
    requires { (TABLE ≤ length table.now) × (binds ≤ TOKENS) }
    ensures { result ≡ find_variable table.now name binds }
{
    for k in (0..binds).rev() {
        if variables::name(table, k) == name {
            return Some(variables::type_number(table, k));
        }
    }
    None
}

// The callee of this name: the newest of the first `seen` functions, or `putchar`.
#[tactic(auto, unfolding(crate::specs::Sight::callee_in))]
pub fn called(table: &[u32], seen: usize, name: u32) -> Callee
    requires { (TABLE ≤ length table.now) × ((k : ℕ) → k < seen → Headed table.now k) }
    ensures { result ≡ callee_in table.now name seen }
{
    match functions::find(table, seen, name) {
        Some(row) => Callee::Function(row),
        None if name == PUTCHAR => Callee::Putchar,
        None => Callee::Nobody,
    }
}

// The number of the type that a callee wants of its argument k, 0 where it has none: specs/Sight.wanted_in is a number,
// with which `suits` compares, and 0 is no type's.
#[tactic(auto, unfolding(language::specs::Meaning::type_number))]
pub fn wanted(table: &[u32], callee: Callee, k: usize) -> u32
    requires { (TABLE ≤ length table.now) × Rowed table.now callee }
    ensures { result ≡ wanted_in table.now callee k }
{
    match callee {
        Callee::Function(row) => {
            if k < rows::link(table, row, rows::ARITY) {
                return rows::word(table, row + k + 1, rows::TYPE);
            }
            0
        }
        Callee::Putchar if k == 0 => types::INT,
        Callee::Putchar | Callee::Nobody => 0,
    }
}

// The number of the type that is wanted of expression k of a list: a bound is an int.
#[tactic(auto, unfolding(language::specs::Meaning::type_number))]
pub fn expected(table: &[u32], taker: Taker, k: usize) -> u32
    requires { (TABLE ≤ length table.now) × Readable table.now taker }
    ensures { result ≡ expected_in table.now taker k }
{
    match taker {
        Taker::Call(callee) => wanted(table, callee, k),
        Taker::For => types::INT,
    }
}
