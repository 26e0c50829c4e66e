//! The memory of the simulated machine: one region of bytes, read and written as little-endian numbers.
#![tactic(auto)]

mod bytes;
mod ram;

pub use ram::Ram;

#[cfg(test)]
mod tests;
