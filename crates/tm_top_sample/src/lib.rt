//! Samples, built and simulated, and what is said of their runs.
#![tactic(auto)]

mod command;
mod made;
mod simulated;
mod summary;

pub use command::sample_command;
pub use made::sample_image;
pub use summary::summary_text;
