//! The program of a test and a seed: its drawn cases, what is checked of them, and the words and tables that run them.
#![tactic(auto)]

mod program;

pub use program::program_of;
