//! What commands owe, and the steps that they share: files are read, opened and written, programs are simulated, texts
//! are printed, and stops are told.
#![tactic(auto)]

mod image;
mod outcome;
mod report;
mod simulated;
mod sizes;
mod steps;
mod stop;

pub use image::open_input;
pub use outcome::Outcome;
pub use report::{tell_stop, tell_usage};
pub use simulated::{Simulated, cut_text, print_simulated, run_in_order};
pub use sizes::{FAULTS_BYTES, TRACE_BYTES};
pub use steps::{print_text, read_input, write_output};
pub use stop::Stop;
