// The functions of a sheet, in their order: each one's row, and the newest that has a name.
ghost use Rattle.std.specs.Prelude.{◌≡◌, ℕ, ◌≤◌, ◌<◌, length};
ghost use Rattle.language.specs.Sizes.{TOKENS, TABLE};
ghost use Rattle.layout.specs.Table.{function_row, put_function};
ghost use Rattle.layout.specs.Functions.{function_name, Headed, find_function};

use crate::{FUNCTIONS_AT, rows, token};

fn word(table: &[u32], k: usize) -> u32
    requires { (TABLE ≤ length table.now) × (k < TOKENS) }
    ensures { result ≡ function_row table.now k }
{
    table[FUNCTIONS_AT + k]
}

// The row of function k.
pub fn row(table: &[u32], k: usize) -> usize
    requires { (TABLE ≤ length table.now) × (k < TOKENS) }
    ensures { result ≡ function_row table.now k }
{
    word(table, k) as usize
}

#[tactic(auto, unfolding(crate::specs::Table::put_function))]
pub fn put(table: &mut [u32], k: usize, row: u32)
    requires { (TABLE ≤ length table.old) × (k < TOKENS) }
    ensures { table.new ≡ put_function table.old k row }
{
    table[FUNCTIONS_AT + k] = row;
}

// The number of function k's name, which stands behind its `def`.
pub fn name(table: &[u32], k: usize) -> u32
    requires { (TABLE ≤ length table.now) × Headed table.now k }
    ensures { result ≡ function_name table.now k }
{
    let head = row(table, k);
    let def = rows::link(table, head, rows::OWN);
    token::value(table, def + 1)
}

// The row of the newest of the first `seen` functions whose name has this number. This search, those of a variable, a
// share and a slot are loops of their own: one over any test would have clauses and closures longer than they are.
pub fn find(table: &[u32], seen: usize, number: u32) -> Option<usize>
    requires { (TABLE ≤ length table.now) × ((k : ℕ) → k < seen → Headed table.now k) }
    ensures { result ≡ find_function table.now number seen }
{
    for k in (0..seen).rev() {
        if name(table, k) == number {
            return Some(row(table, k));
        }
    }
    None
}
