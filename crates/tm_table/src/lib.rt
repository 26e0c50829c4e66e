//! The instruction table of RV64I: the words of instructions and back, and their steps.
#![tactic(auto)]

mod add;
mod coding;
mod instr;
mod numbers;
mod state;
mod step;
mod table;

pub use add::{Add, decode_add, encode_add, exec_add};
pub use coding::{decode, encode, fits};
pub use instr::{Instr, Op};
pub use state::{Access, Cpu};
pub use step::{Action, action_at, apply, exec, needs_read};
