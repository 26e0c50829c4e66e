//! Sets of bytes of the windows, as planes of bits: byte q of the windows is bit q mod 64 of element q / 64.
#![tactic(auto)]

mod declared;
mod planes;
mod words;

pub use declared::is_declared;
pub use planes::{PLANE_WORDS, Plane, has, has_any, overwrite, put, spoiled, union, without};
pub use words::{meets, overwritten, with_bit};
