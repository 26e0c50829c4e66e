//! Runs of one memory, in which support code reads what was written last: plain runs, and those with faults in streams.
#![tactic(auto)]

pub mod laws;
