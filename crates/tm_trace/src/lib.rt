//! The text of a recorded run: what a trace file holds.
#![tactic(auto)]

mod fields;
pub mod laws;
mod line;
mod read;
mod trace;
mod write;

pub use read::read_trace;
pub use trace::{Trace, TraceFault};
pub use write::write_trace;
