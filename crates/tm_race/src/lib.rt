//! Race tracking: what of each case depends on no race, and is checked.
#![tactic(auto)]

mod bytes;
mod harts;
mod masks;
mod planes;
mod registers;

pub use masks::track;
pub use tm_race_walk::{Taint, may_write, store_plane};
