//! The words of the parts of one hart's program, of any number of cases, passes, windows and harts.
#![tactic(auto)]

mod cases;
mod ends;
mod instrs;
mod parts;
mod sizes;
mod whole;
mod words;

pub use cases::{append_before, append_behind, collect_size, compare_size, first_size};
pub use ends::{append_ending, append_opening, barrier_size};
pub use parts::{put_before, put_behind, put_opening};
pub use sizes::{CaseSize, size_of};
pub use whole::append_case;
pub use words::append_code;
