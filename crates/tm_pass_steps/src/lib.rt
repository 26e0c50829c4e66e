//! How the parts of a hart's program, put together of the blocks, lead it on its way.
#![tactic(auto)]

pub mod laws;
