//! The command that lists an image.
#![tactic(auto)]

mod list;

pub use list::list_command;
