//! The two input texts of an image: the test that they ask for, or their first fault.
#![tactic(auto)]

mod read;

pub use read::{read_inputs, topology_fault};
pub use tm_refusals::{BuildFault, InputFault, Role};
