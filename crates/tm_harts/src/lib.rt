//! The mill: the harts of one guest, driven by many threads.
//!
//! The guest stands behind a first-come lock, and each hart has a *seat* there. A *turn* of a seat takes the guest,
//! makes at most one event, of the seat's hart, and hands the guest back. So all harts write one journal. Each seat
//! remembers what it has *seen* of the journal, which of these events are *mine*, its own, and the greatest number of
//! events that it was told.
//!
//! A hart that waits at the barrier for another one *holds back*: where its next step would be an idle read, a turn
//! makes no event, so that the journal has no idle reads and a waiting hart takes no room in it. Where threads drive
//! the harts, the seat of such a hart sleeps.
//!
//! `Mill::turn` and `run_threads` may wait, and `Mill::start` alone takes memory. Not promised is that a turn ever
//! comes, or in which order harts come by.
#![tactic(auto)]

mod held;
mod mill;
mod threads;
mod waiting;

pub use held::{Held, Setup};
pub use mill::{Mill, Seat};
pub use threads::run_threads;
