//! The definitions of runs: what a legal run, a plain run, a half run and a run under a script of faults is, what a
//! sound program owes on them, and laws over these.
#![tactic(auto)]

pub mod laws;
