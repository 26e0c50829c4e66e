//! The words of the command line, read as a command.
#![tactic(auto)]

mod asked;
mod command;
mod fit;
pub mod laws;
mod parser;
mod search;
mod words;

pub use command::{Build, Command, Judge, Run, WordsFault};
pub use words::read_words;
