//! The rules of one slot of a body, and which harts a body is for.
#![tactic(auto)]

mod access;
mod emits;
mod mixes;
mod teams;

pub use emits::emit_fault;
pub use mixes::mix_fault;
pub use teams::is_in_team;
pub use tm_refusals::RuleFault;
