//! Which dwords of shared memory each hart collects, and how many steps a hart and a whole run may work.
#![tactic(auto)]

mod dwords;
pub mod laws;
mod lines;
mod steps;

pub use dwords::{owned, owned_addr};
pub use lines::{bytes_of, dwords_of, line_addr, line_count, line_place, stride_of};
pub use steps::{budget, work};
