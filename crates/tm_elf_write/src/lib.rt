//! The file of an image: an ELF-64 file for RISC-V with its text, tables, plan and symbols.
#![tactic(auto)]

mod fields;
mod header;
mod parts;
mod places;
mod plan;
mod sections;
mod segments;
mod symbols;
mod write;

pub use parts::{MOST_SYMBOLS, Parts, Plan, SYMBOL_NAME_BYTES, Symbol};
pub use plan::plan_mark;
pub use write::write_elf;
