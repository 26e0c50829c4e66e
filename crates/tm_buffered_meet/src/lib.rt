//! Harts that meet on buffered runs: signals land from the oldest place of a buffer, and harts never wait for each
//! other all at once.
#![tactic(auto)]

pub mod laws;
