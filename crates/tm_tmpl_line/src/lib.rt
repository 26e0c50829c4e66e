//! What a template says, and the form of each of its statements.
//!
//! Each call takes a text and the tokens of one line of it, the line's first word first, and reads what stands behind
//! that word. The fault is
//! `Expected` at the first token that doesn't fit, or `Early` where the tokens end before.
#![tactic(auto)]

mod lines;
mod words;

pub use lines::{
    body_line, case_line, emit_line, mix_line, passes_line, template_line, window_line,
};
pub use tm_tmpl_types::{
    BodyDecl, CaseDecl, Kind, Selector, SlotDecl, SlotText, Template, TmplFault, Want, WindowDecl,
};
