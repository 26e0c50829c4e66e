//! The command that runs an image: in round order, and with a thread for each hart, under a script of faults or none.
#![tactic(auto)]

mod finish;
mod inputs;
pub mod laws;
mod run;
mod script;
mod tell;
mod threads;

pub use run::run_command;
pub use tell::told;
pub use threads::threads_command;
