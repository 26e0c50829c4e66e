//! The command that judges the trace of a run of an image.
#![tactic(auto)]

mod judge;
mod trace;

pub use judge::judge_command;
