//! Why inputs and images are refused, and of which file it is told.
#![tactic(auto)]

mod elf;
mod image;
mod inputs;
mod role;
mod rule;

pub use elf::ElfFault;
pub use image::ImageFault;
pub use inputs::{BuildFault, InputFault};
pub use role::Role;
pub use rule::{AdmitFault, RuleAt, RuleFault};
