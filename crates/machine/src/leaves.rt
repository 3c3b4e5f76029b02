// Literals.
ghost use Rattle.std.specs.Prelude.{◌≡◌};
ghost use Rattle.language.specs.Meaning.{literal_value};
ghost use Rattle.layout.specs.Values.{meant};
ghost use Rattle.machine.specs.Rows.{LiteralRow, literal_of};

use language::kinds;
use layout::values::Value;
use layout::{floats, rows, token};

pub fn literal(table: &[u32], node: usize) -> Value
    requires { LiteralRow table.now node }
    ensures { meant result ≡ literal_value (literal_of table.now node) }
{
    match rows::word(table, node, rows::KIND) {
        kinds::NUMBER => {
            let at = rows::link(table, node, rows::OWN);
            Value::Int(token::value(table, at) as i32)
        }
        kinds::FLOAT_NUMBER => {
            let at = rows::link(table, node, rows::OWN);
            let bits = floats::join(token::high(table, at), token::value(table, at));
            Value::Float(floats::of_bits(bits))
        }
        kinds::TRUE => Value::Flag(true),
        kinds::FALSE => Value::Flag(false),
        _ => Value::Nothing,
    }
}
