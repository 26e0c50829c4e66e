//! Samples: the two texts that a number stands for, which are accepted whatever the number.
#![tactic(auto)]

pub mod laws;
mod texts;

pub use texts::sample_texts;
