//! A program is sound by what each of its harts does on its own steps.
#![tactic(auto)]

pub mod laws;
