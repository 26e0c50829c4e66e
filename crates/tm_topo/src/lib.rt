//! The system that a test is built for, read from TOML.
#![tactic(auto)]

mod read;
mod system;

pub use read::parse_topology;
pub use system::{TopoFault, TopoKey, Topology};
