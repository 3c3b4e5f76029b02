// Types expressions: of the tree at a node its type, or its first fault.
#![tactic(auto)]

pub mod expressions;
