//! The lines that tell of faults on the error stream, and those of a judgement.
#![tactic(auto)]

mod fault;
mod grammar;
mod judgement;
mod line;
mod rule;
mod script;
mod topology;
mod trace;
mod values;

pub use fault::AnyFault;
pub use judgement::judgement_text;
pub use line::fault_line;
pub use tm_refusals::Role;
