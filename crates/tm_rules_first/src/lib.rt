//! The first rule that a template breaks, and where.
#![tactic(auto)]

mod bodies;
mod cases;
pub mod laws;
mod place;
mod slots;
mod walk;
mod windows;

pub use place::window_of;
pub use tm_refusals::RuleAt;
pub use walk::first_broken;
