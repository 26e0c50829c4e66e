//! The store-buffered machine: the harts of a program over one memory, to which the writes of each hart go at free
//! moments.
#![tactic(auto)]

mod bytes;
mod drains;
mod guest;
mod hart;
mod rounds;
mod turn;

pub use guest::BufferGuest;
pub use hart::BUFFER_WRITES;
pub use turn::Drained;
