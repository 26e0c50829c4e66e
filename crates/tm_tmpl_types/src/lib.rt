//! What a template says, and why a text says none.
#![tactic(auto)]

mod template;

pub use template::{
    BodyDecl, CaseDecl, Kind, Selector, SlotDecl, SlotText, Template, TmplFault, Want, WindowDecl,
};
