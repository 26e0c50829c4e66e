//! The barrier at which harts meet, as words of labelled code.
#![tactic(auto)]

mod barrier;
pub mod laws;

pub use barrier::{BarrierMarks, put_barrier};
