//! What is reported on a run: the verdicts of its journal, and the texts that are printed of them.
#![tactic(auto)]

mod cells;
mod numbers;
mod report;

pub use cells::verdicts;
pub use numbers::Verdicts;
pub use report::{full_text, report_text};
