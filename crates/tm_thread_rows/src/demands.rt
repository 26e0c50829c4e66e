// What is demanded, and whether it holds.
use crate::gate::{AHEAD, HoldingGate};
use tm_base::{Bytes, NoMemory};
use tm_plan_journal::Journal;

/// What is demanded of each run through the gate.
pub const NONE_GAVE_UP: &str = "no hold gave up";

pub const ALL_PASSED: &str = "each hart passed the gate at least as often as it has events";

pub const NONE_BEFORE: &str = "hart 0 has no event before its first pass has ended";

/// Appends a line for each demand: `ok` where it holds.
pub fn put_demands(out: &mut Bytes, demands: &[&str], hold: &[bool]) -> Result<(), NoMemory> {
    for (demand, holds) in demands.iter().zip(hold) {
        out.append(demand.as_bytes())?;
        out.append(if *holds { b": ok\n" } else { b": FAILED\n" })?;
    }
    Ok(())
}

/// Whether each hart has events in the journal, and has passed the gate at least as often.
pub fn all_passed(gate: &HoldingGate, harts: u32, journal: &Journal) -> bool {
    let mut holds = true;
    for hart in 0..harts {
        let events = events_of(journal, hart);
        holds = holds && events > 0 && gate.passes(hart) >= events;
    }
    holds
}

/// How many events of a journal are of a hart.
fn events_of(journal: &Journal, hart: u32) -> u64 {
    let mut events: u64 = 0;
    for place in 0..journal.len() {
        if journal.at(place).hart == hart {
            events = events.saturating_add(1);
        }
    }
    events
}

/// Whether hart 0's first event stands behind all that hart 1 makes until its tenth pass begins, for which the gate
/// holds hart 0 in its first.
pub fn none_before(journal: &Journal) -> bool {
    let mut ahead: u64 = 0;
    for place in 0..journal.len() {
        match journal.at(place).hart {
            0 => return ahead >= AHEAD - 1,
            1 => ahead = ahead.saturating_add(1),
            _ => {}
        }
    }
    false
}
