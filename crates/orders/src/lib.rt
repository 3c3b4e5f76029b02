// What a clerk asks for in words: which task, how many words it takes and which edition. Pure functions; the program
// reads the words.
#![tactic(auto)]

pub mod asked;
pub mod meanings;
pub mod tasks;
