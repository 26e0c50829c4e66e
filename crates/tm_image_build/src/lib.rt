//! From the two input texts to the program of an image and its file.
#![tactic(auto)]

mod image;
mod symbols;

pub use image::{Image, build};
pub use tm_image_inputs::topology_fault;
pub use tm_refusals::{BuildFault, InputFault, Role};
