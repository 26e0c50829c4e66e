//! Legal runs: each is a half run, and with one hart a plain run.
#![tactic(auto)]

pub mod laws;
