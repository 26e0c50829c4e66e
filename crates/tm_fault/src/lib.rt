//! Fault scripts: what their texts say over a program's cases.
#![tactic(auto)]

mod fault;
mod line;
mod marks;
mod parse;
mod slots;
mod words;

pub use fault::{FaultScriptFault, Want2};
pub use parse::parse_faults;
