//! A first-come lock over a value that keeps a history.
//!
//! Who wants the value draws a *ticket*, the next number, and waits until the line is *serving* that number. It then
//! holds the value until it leaves, which passes the turn on to the next ticket. A thread does this with a *seat*,
//! which remembers what it has seen of the history and which entries it made. Beside the turns the line keeps the
//! *count* of entries, which anyone with a seat can read at any time.
//!
//! `Line::enter` alone may wait, and `Line::start` alone takes memory. Not promised is that a turn ever comes, that
//! turns come in a fair order, or when they come: who doesn't leave holds up all others.
#![tactic(auto)]

mod bells;
mod kept;
mod line;
mod steps;
mod table;

pub use kept::Kept;
pub use line::{Line, LineSeat};
