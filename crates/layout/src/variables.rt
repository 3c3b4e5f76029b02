// The variables that the checker has in sight, the nearest last: a name's number and a type's number.
ghost use Rattle.std.specs.Prelude.{◌≡◌, ◌≤◌, ◌<◌, length};
ghost use Rattle.language.specs.Sizes.{TOKENS, TABLE};
ghost use Rattle.layout.specs.Table.{variable_name, variable_type, put_variable};

use crate::VARIABLES_AT;

// Its name's number.
pub fn name(table: &[u32], at: usize) -> u32
    requires { (TABLE ≤ length table.now) × (at < TOKENS) }
    ensures { result ≡ variable_name table.now at }
{
    table[VARIABLES_AT + 2 * at]
}

// Its type's number.
pub fn type_number(table: &[u32], at: usize) -> u32
    requires { (TABLE ≤ length table.now) × (at < TOKENS) }
    ensures { result ≡ variable_type table.now at }
{
    table[VARIABLES_AT + 2 * at + 1]
}

#[tactic(auto, unfolding(crate::specs::Table::put_variable))]
pub fn put(table: &mut [u32], at: usize, name: u32, number: u32)
    requires { (TABLE ≤ length table.old) × (at < TOKENS) }
    ensures { table.new ≡ put_variable table.old at name number }
{
    let w = VARIABLES_AT + 2 * at;
    table[w] = name;
    table[w + 1] = number;
}
