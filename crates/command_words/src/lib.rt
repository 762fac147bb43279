//! The words of the program's command.
//!
//! What words ask for is said by the definition `command` in `specs/Commands.antt`, on lists of words, apart from the code. The words are
//! taken apart by `clap`, as `program` tells it.
#![tactic(auto)]

mod command;
mod found;
mod numbers;
mod program;

pub use command::{Command, Task, read_words};
