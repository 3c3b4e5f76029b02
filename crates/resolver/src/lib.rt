// Resolves the names and calls of a program that has a type, before it runs: which slot of its frame a name means, and
// which function a call means, is noted of its token.
#![tactic(auto)]

mod trees;

ghost use Rattle.std.specs.Prelude.{◌+◌, ◌<◌};
ghost use Rattle.layout.specs.Table.{ARITY};
ghost use Rattle.resolver.specs.Resolves.{Binding, Bound, Programs, Resolving, Resolvable, Resolves};

use layout::{Held, functions, notes, rows, token};

// The parameters of the function at a row are the first names of its frame.
fn parameters(table: &mut [u32], row: usize, count: usize)
    requires { Binding table.old row count }
    ensures { Bound table.old table.new row count }
{
    for i in 0..count {
        let own = rows::link(table, row + 1 + i, rows::OWN);
        let name = token::value(table, own);
        notes::put_name(table, i, name);
    }
}

// The bodies of function k and those behind it, then the last expression.
fn from(table: &mut [u32], k: usize, defs: usize, root: usize)
    requires { Resolving table.old k defs root }
    ensures { Programs table.old table.new k defs root }
{
    if k < defs {
        let row = functions::row(table, k);
        let count = rows::link(table, row, rows::ARITY);
        let body = rows::link(table, row, rows::BODY);
        parameters(table, row, count);
        trees::place(table, body, defs, count);
        from(table, k + 1, defs, root);
        return;
    }
    trees::place(table, root, defs, 0);
}

// The program that a table holds.
pub fn resolve(table: &mut [u32], program: Held)
    requires { Resolvable table.old program }
    ensures { Resolves table.old table.new program }
{
    from(table, 0, program.functions, program.root);
}
