// The words that slip is started with, what it reads by them, what it writes, and its help.
#![tactic(auto)]

pub mod arguments;
pub mod help;
pub mod input;
pub mod output;
pub mod rooms;
pub mod statuses;

use std::io::{Eprint, Input, Print};
use std::rt::{Env, Files, HostRuntime};

// What slip reaches outside itself: the words that it was started with, files, standard input and the two outputs.
// There is neither an allocator in it nor a clock.
pub trait Outside: Env + Files + Input + Print + Eprint {}

impl Outside for HostRuntime {}
