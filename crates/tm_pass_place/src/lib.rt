//! How the text of a program, built of the blocks of support code, has each part of each hart in its place.
#![tactic(auto)]

pub mod laws;
