//! The tokens of templates and fault scripts.
#![tactic(auto)]

mod bytes;
mod faults;
mod lines;
mod readers;
mod token;
mod words;

pub use lines::tokens;
pub use readers::{is_name, is_raw, is_word};
pub use token::{LexFault, Token, TokenKind};
