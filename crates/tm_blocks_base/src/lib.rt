//! The words of which support code for harts of RV64I is put together, and what every run of a block of them does.
#![tactic(auto)]

pub mod laws;
