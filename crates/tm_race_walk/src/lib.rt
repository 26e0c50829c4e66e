//! Which registers and bytes depend on a race, before each slot of a hart's stream.
#![tactic(auto)]

mod ends;
mod slots;
mod stores;
mod walking;

pub use ends::end_of;
pub use stores::{may_write, store_plane};
pub use walking::Taint;
