//! A template is admitted, or the first rule that it breaks is named.
#![tactic(auto)]

mod bodies;
mod form;
pub mod laws;
mod slots;

pub use form::admit;
pub use tm_refusals::{AdmitFault, RuleAt, RuleFault};
