//! What every run of support code does: the laws by which runs compose, and that half runs are such runs.
#![tactic(auto)]

pub mod laws;
