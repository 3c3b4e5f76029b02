// The numbers of names.
ghost use Rattle.tokens.specs.Found.{Searchable, First, Numbered, bytes_of};
ghost use Rattle.tokens.specs.Forks.{Planted};
ghost use Rattle.tokens.specs.Parts.{part_of};
ghost use Rattle.tokens.specs.Shown.{text_of};

use crate::forks::{hang, way_end};
use crate::view::Part;
use layout::{PUTCHAR, token};

// The ordinal of the first of the tokens in the table that is spelled like this name, which is to be the next one;
// where none is, their count. The next name with these bytes will find it, too.
pub fn first_alike(table: &mut [u32], count: usize, name: &Part) -> usize
    requires { Searchable (text_of name.now.text.now) table.old count (part_of name.now) }
    ensures { First (text_of name.now.text.now) table.old count (part_of name.now) result
        × Planted (bytes_of (text_of name.now.text.now) table.old) table.old table.new count
        (part_of name.now) }
{
    if count == 0 {
        return 0;
    }
    let at = way_end(table, count, name);
    let leaf = table[at] as usize;
    let old = Part {
        text: name.text,
        from: token::place(table, leaf) as usize,
        to: token::end(table, leaf) as usize,
    };
    if hang(table, at, count, &old, name) {
        return leaf;
    }
    count
}

// The number of the name, which is to be the next token of the table.
pub fn name_number(table: &mut [u32], count: usize, name: &Part) -> u32
    requires { Searchable (text_of name.now.text.now) table.old count (part_of name.now) }
    ensures { Numbered (text_of name.now.text.now) table.old count (part_of name.now) result
        × Planted (bytes_of (text_of name.now.text.now) table.old) table.old table.new count
        (part_of name.now) }
{
    let ordinal = first_alike(table, count, name);
    if name.spells(b"putchar") {
        return PUTCHAR;
    }
    ordinal as u32
}
