// A part of an expression that was read, and the rows of nodes.
ghost use Rattle.std.specs.Prelude.{◌≡◌, ◌+◌, ◌≤◌, ◌<◌, length};
ghost use Rattle.language.specs.Sizes.{TOKENS, NODES, TABLE};
ghost use Rattle.language.specs.Tokens.{IF};
ghost use Rattle.layout.specs.Table.{put_row};
ghost use Rattle.phrases.specs.Parts.{Written, Placed, Topped};
ghost use Rattle.phrases.specs.Words.{REACH, part_of, tree_at, none_at};

use language::kinds;
use layout::rows;
use std::marker::Model;

// A tree that was read: the row of its root, the token behind it, and the first free row.
#[derive(Clone, Copy)]
pub struct Tree {
    pub root: u32,
    pub next: usize,
    pub free: usize,
}

// The token at which reading failed.
#[derive(Clone, Copy)]
pub struct Failed {
    pub at: usize,
}

// What a reader answers: a tree, or where there is none. It goes from reader to reader as one word: the first
// free row, 0 where reading failed, and the token. The root is the row before the free one. The `Result` itself,
// handed on by `?`, was tried: even with a tree of one word it takes 192 bytes of stack for each token on wasm32,
// where this takes 80, and that is more than the header promises; on ARM it takes half as much again.
#[derive(Clone, Copy)]
pub struct Read {
    word: u32,
}

impl Model for Read {
    ghost use Rattle.phrases.specs.Words.{Part, part_of, word_of, same_word};

    ghost Value = { Part };

    ghost view = { λ r. part_of r.word };

    ghost inverse = { λ p. record { word = word_of p } };

    ghost inverse_ok = { λ r h i. record { word = same_word r.word i } };
}

const REACH: u32 = 65536;

impl Read {
    // A tree up to the token `next`.
    pub fn tree(root: u32, next: usize) -> Read
        requires { (root < NODES) × (next < REACH) }
        ensures { result ≡ tree_at root next (root + 1) }
    {
        Read {
            word: REACH * (root + 1) + next as u32,
        }
    }

    // Reading failed at a token.
    pub fn failed(at: usize) -> Read
        requires { at < REACH }
        ensures { result ≡ none_at at }
    {
        Read { word: at as u32 }
    }

    // What any word stands for.
    pub fn of_word(word: u32) -> Read
        ensures { result ≡ part_of word }
    {
        Read { word }
    }

    // The tree, or where there is none.
    pub fn part(self) -> Result<Tree, Failed>
        ensures { result ≡ self }
    {
        let free = self.word / REACH;
        let next = (self.word % REACH) as usize;
        if free == 0 {
            return Err(Failed { at: next });
        }
        Ok(Tree {
            root: free - 1,
            next,
            free: free as usize,
        })
    }
}

// A node at the first free row; `next` stands behind it.
pub fn node(
    table: &mut [u32],
    free: usize,
    next: usize,
    kind: u32,
    own: usize,
    first: u32,
    second: u32,
    third: u32,
) -> Read
    requires { (TABLE ≤ length table.old) × (own < TOKENS) × (free < NODES) × (next < REACH) }
    ensures { Written free next (put_row table.old free kind own first second third)
        table.old result table.new }
{
    rows::put(table, free, kind, own as u32, first, second, third);
    Read::tree(free as u32, next)
}

// The functions below write a node behind the last of its parts, and hand on where that failed. They differ in
// the links of its row and in the token behind it: as one function each call would give all of these, which the
// names say. What they require is told of three things, the table, the token and the part, so no type holds it.

// A node over one part.
pub fn over(table: &mut [u32], kind: u32, own: usize, read: Read) -> Read
    requires { (TABLE ≤ length table.old) × (own < TOKENS) × Placed read }
    ensures { Topped (λ w k r. put_row w k kind own r 0 0) (λ m. m) read table.old result table.new }
{
    match read.part() {
        Ok(last) => node(table, last.free, last.next, kind, own, last.root, 0, 0),
        Err(_) => read,
    }
}

// The same where a closing mark stands behind the part.
pub fn around(table: &mut [u32], kind: u32, own: usize, read: Read) -> Read
    requires { (TABLE ≤ length table.old) × (own < TOKENS) × Placed read }
    ensures { Topped (λ w k r. put_row w k kind own r 0 0) (λ m. m + 1) read table.old result table.new }
{
    match read.part() {
        Ok(last) => node(table, last.free, last.next + 1, kind, own, last.root, 0, 0),
        Err(_) => read,
    }
}

// A node over two parts, the first of which has its root at `first`.
pub fn pair(table: &mut [u32], kind: u32, own: usize, first: u32, read: Read) -> Read
    requires { (TABLE ≤ length table.old) × (own < TOKENS) × Placed read }
    ensures { Topped (λ w k r. put_row w k kind own first r 0) (λ m. m) read table.old result table.new }
{
    match read.part() {
        Ok(last) => node(table, last.free, last.next, kind, own, first, last.root, 0),
        Err(_) => read,
    }
}

// The node of an `if`, over its three parts.
pub fn choice(table: &mut [u32], own: usize, first: u32, second: u32, read: Read) -> Read
    requires { (TABLE ≤ length table.old) × (own < TOKENS) × Placed read }
    ensures { Topped (λ w k r. put_row w k IF own first second r) (λ m. m) read table.old result
        table.new }
{
    match read.part() {
        Ok(last) => {
            let kind = kinds::IF;
            node(
                table, last.free, last.next, kind, own, first, second, last.root,
            )
        }
        Err(_) => read,
    }
}
