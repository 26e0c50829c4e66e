//! One hart's whole program, and the text of all harts with its marks.
#![tactic(auto)]

mod cases;
mod hart;
mod marks;
mod streams;
mod text;

pub use hart::{HartCode, hart_code};
pub use text::{ProgramText, program_text};
pub use tm_pass_place::laws;
