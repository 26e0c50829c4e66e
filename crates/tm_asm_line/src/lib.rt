//! Assembler text: one instruction, read and printed.
#![tactic(auto)]

mod fault;
mod line;
mod print;
mod read;
mod shape;

pub use fault::AsmFault;
pub use print::print_line;
pub use read::parse_line;
pub use shape::name as op_name;
