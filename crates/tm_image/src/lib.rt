//! Opens images: a file is taken only where it is built again of its own plan, byte for byte.
#![tactic(auto)]

pub mod laws;
mod open;

pub use open::open_image;
pub use tm_image_build::{Image, build};
pub use tm_refusals::{BuildFault, ImageFault, InputFault, Role};
