//! Buffered runs in rounds, in which writes drain now and then: they end.
#![tactic(auto)]

pub mod laws;
