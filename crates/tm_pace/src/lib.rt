//! How much harts work: a pace, phase by phase, keeps the bound on every run, and ends runs without idle reads.
#![tactic(auto)]

pub mod laws;
