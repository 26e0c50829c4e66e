//! The journal of a simulation: its events in order, in room that was taken beforehand.
#![tactic(auto)]

mod journal;

pub use journal::Journal;
