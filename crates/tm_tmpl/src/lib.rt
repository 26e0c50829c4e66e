//! Templates: their texts read, and printed.
#![tactic(auto)]

mod print;

pub use print::print_template;
pub use tm_tmpl_read::parse_template;
pub use tm_tmpl_types::{
    BodyDecl, CaseDecl, Kind, Selector, SlotDecl, SlotText, Template, TmplFault, Want, WindowDecl,
};
