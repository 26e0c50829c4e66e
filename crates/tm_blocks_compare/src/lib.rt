//! Words of labelled code that compare the saved dwords of all passes of a case, and write the verdict.
#![tactic(auto)]

mod checks;
pub mod laws;
mod words;

pub use words::put_compare;
