//! All that the program does, over a desk of files and two sinks that are handed in.
#![tactic(auto)]

mod call;
mod program;

pub use call::{still, top};
pub use program::{NoWords, exit_of, outcome_of, run};
pub use tm_refusals::Role;
pub use tm_sample::laws::always_accepted;
pub use tm_sample::sample_texts;
pub use tm_top_line::{AnyFault, fault_line};
pub use tm_top_owed::Outcome;
pub use tm_words::laws::words_ask;
