//! What a hart does inside its streams on legal runs: its stays are short, and those without loads end alike.
#![tactic(auto)]

pub mod laws;
