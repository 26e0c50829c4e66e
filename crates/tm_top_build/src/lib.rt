//! The command that builds an image.
#![tactic(auto)]

mod build;
mod image;
mod inputs;
mod made;

pub use build::build_command;
