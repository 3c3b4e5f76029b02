// The type checker: of the program that a table holds, its type or its first fault.
#![tactic(auto)]

ghost use Rattle.checker.specs.Checked.{Checkable, Checked};

mod programs;

use layout::{Held, TABLE_END, VARIABLES_AT, memory};
use rules::Fault;

// The type of the program that the table holds, or its first fault. The variables' words are cleared.
pub fn type_of(table: &mut [u32], program: Held) -> Result<u32, Fault>
    requires { Checkable table.old program }
    ensures { Checked table.old table.new program result }
{
    let answer = programs::program(table, program);
    memory::clear(table, VARIABLES_AT, TABLE_END);
    answer
}
