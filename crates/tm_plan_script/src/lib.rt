//! Scripts of faults: which steps of streams are changed, and how; and which scripts are accepted.
#![tactic(auto)]

mod faults;
pub mod laws;

pub use faults::{Action, FaultLine, Faults};
