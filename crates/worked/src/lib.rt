// Worked examples, the papers' and further ones, each shown by computation to come to what is told of it: they pin down
// constants, numbers and places that a general theorem leaves open. No code is here, and nothing rests on this crate.
#![tactic(auto)]
