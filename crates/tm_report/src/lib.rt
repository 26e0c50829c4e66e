//! Texts about programs and their runs: the listing of all slots and of what isn't checked, and the report on a run.
#![tactic(auto)]

mod dwords;
mod entries;
mod list;
mod registers;
mod slots;

pub use list::list_text;
pub use tm_report_run::{Verdicts, full_text, report_text, verdicts};
