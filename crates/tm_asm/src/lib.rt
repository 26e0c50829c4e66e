//! Labelled code, which becomes words.
#![tactic(auto)]

mod code;
mod fault;

pub use code::{Code, Label};
pub use fault::CodeFault;
