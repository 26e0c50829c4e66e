//! Files of cases: texts by name, the form in which a line writes bytes, and each case with its answer behind it.
#![tactic(auto)]

mod book;
mod change;
mod form;
mod lines;
mod program;
mod show;
mod state;
mod words;

pub use book::{Book, Entry};
pub use change::changed;
pub use lines::Kinds;
pub use program::answer_files;
pub use show::{put, put_text};
pub use state::State;
pub use words::{calls, number, option, small, words_of};
