//! What the program sees of the outside: files by name and sinks of bytes, each with a count of faults.
#![tactic(auto)]

mod calls;
mod calm_desk;
mod calm_sink;
mod desk;
mod files;
mod gate;
mod mem_desk;
mod mem_sink;
mod real;
mod sink;
mod whole;

pub use calm_desk::CalmDesk;
pub use calm_sink::CalmSink;
pub use desk::{Desk, DeskError};
pub use gate::{Gate, OpenGate};
pub use mem_desk::MemDesk;
pub use mem_sink::MemSink;
pub use real::{RealDesk, RealSink};
pub use sink::{Sink, SinkError, put_all};
