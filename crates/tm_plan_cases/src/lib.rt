//! The plain types of cases, masks, programs and events, and the map of the guest's memory.
#![tactic(auto)]

mod bytes;
mod cases;
mod event;
pub mod laws;
mod masks;
mod program;

pub use bytes::tables;
pub use cases::{Case, Cases, Stream};
pub use event::Event;
pub use masks::{CaseMask, Masks};
pub use program::{Marks, Program};
pub use tm_plan_map::{
    Admitted, AdmittedCase, Kind2, Slot, SlotList, Window, flag_addr, private_base, save_addr,
    table_addr, verdict_addr, window_base,
};

#[cfg(test)]
mod tests;
