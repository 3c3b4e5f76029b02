// Reads phrases: what the grammar says from Seq down.
//
// A function for each rule of the grammar, but one for Tail and Item, begins at a token and at the first free
// row. It answers what it read, laid down in rows, the parts before their whole, or the token at which it
// failed. `specs/` says what is told of an answer.
#![tactic(auto)]

pub mod items;
pub mod loops;
pub mod names;
pub mod operators;
pub mod parts;
pub mod tiers;
