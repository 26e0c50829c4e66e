//! The file of an image: written, and read back, or what is at fault in it.
#![tactic(auto)]

mod names;
mod read;
mod symbols;

pub use read::read_elf;
pub use tm_elf_head::first_difference;
pub use tm_elf_write::{Parts, Plan, Symbol, write_elf};
pub use tm_refusals::ElfFault;
