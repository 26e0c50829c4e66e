//! Words of labelled code that set and collect the shared dwords of one hart, line by line.
#![tactic(auto)]

pub mod laws;
mod words;

pub use words::{put_collect, put_first_bytes};
