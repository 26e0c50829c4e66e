//! Templates: what their texts say.
#![tactic(auto)]

pub mod laws;
mod parse;
mod read;
mod tokens;

pub use parse::parse_template;
pub use tm_tmpl_types::{
    BodyDecl, CaseDecl, Kind, Selector, SlotDecl, SlotText, Template, TmplFault, Want, WindowDecl,
};
