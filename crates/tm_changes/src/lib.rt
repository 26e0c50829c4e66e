//! What a script of faults changes in each step of a program, found by the place of the step's word.
#![tactic(auto)]

mod chains;
mod change;
mod changes;
mod names;

pub use change::Change;
pub use changes::Changes;
