//! What the headers of an image's file say, and what is at fault in them.
#![tactic(auto)]

mod difference;
mod header;
mod numbers;
mod plan;
mod segments;
mod spans;
mod tables;

pub use difference::first_difference;
pub use header::header_fault;
pub use numbers::{long_at, part_at, word_at};
pub use plan::{has_plan, read_plan};
pub use segments::bad_segment;
pub use spans::{Span, section, segment};
pub use tables::has_symbols;
