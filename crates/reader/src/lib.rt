// The reader: from the tokens in table memory to the rows of their reading. Functions and the program are
// read here, what they are made of by `phrases`.
#![tactic(auto)]

mod definitions;
mod types;

ghost use Rattle.std.specs.Prelude.{List};
ghost use Rattle.language.specs.Tokens.{Token};
ghost use Rattle.layout.specs.Names.{Stand};
ghost use Rattle.reader.specs.Findings.{Standing, Finds};

use definitions::program;
use layout::memory::clear;
use layout::{Held, ROWS_AT, VARIABLES_AT};
use phrases::parts::Failed;

// Reads the first `count` tokens of the table: the reading, laid down in it, or the token at which reading failed.
// Where there is no reading, no row is left in it. Each row has a token of its own, so there is room for every row.
pub fn read(table: &mut [u32], count: usize) -> Result<Held, Failed>
    requires { Standing table.old count }
    ensures { (ts : List Token) → Stand table.old count ts
        → Finds ts table.old result table.new }
{
    let failed = match program(table, count, 0, 0, 0) {
        Ok(whole) if whole.next == count => {
            let held = Held {
                count,
                functions: whole.defs,
                root: whole.root as usize,
            };
            return Ok(held);
        }
        Ok(whole) => Failed { at: whole.next },
        Err(failed) => failed,
    };
    clear(table, ROWS_AT, VARIABLES_AT);
    Err(failed)
}
