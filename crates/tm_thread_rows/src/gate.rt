// A gate that two harts pass together.
use std::sync::atomic::{AtomicBool, AtomicU64, Ordering};
use std::thread;
use tm_desk::Gate;

/// How many harts there are at most.
const HARTS: usize = 8;

/// How many times a hold looks for the other hart until it gives up.
const LOADS: u32 = 100_000_000;

/// After so many loads in a row a hold lets other threads go on.
const LOADS_IN_A_ROW: u32 = 1000;

/// The pass of hart 1 that has to begin before hart 0's first pass ends.
pub const AHEAD: u64 = 10;

/// The pass in which both harts are held once more.
const LATER: u64 = 1000;

/// A gate that holds hart 0 in its first pass until hart 1's tenth has begun, and hart 1 in its first until hart 0's
/// first has; and each of the two in its 1000th until the other's has begun. Where one thread drives both harts, a hold
/// gives up.
///
/// It counts the passes of each hart, and keeps whether a hold gave up.
#[derive(Drop)]
pub struct HoldingGate {
    passes: [AtomicU64; HARTS],
    gave_up: AtomicBool,
}

impl HoldingGate {
    /// A gate that nobody has passed.
    pub fn new() -> HoldingGate {
        HoldingGate {
            passes: [
                AtomicU64::new(0),
                AtomicU64::new(0),
                AtomicU64::new(0),
                AtomicU64::new(0),
                AtomicU64::new(0),
                AtomicU64::new(0),
                AtomicU64::new(0),
                AtomicU64::new(0),
            ],
            gave_up: AtomicBool::new(false),
        }
    }

    /// How often a hart has passed so far.
    pub fn passes(&self, hart: u32) -> u64 {
        match self.passes.get(hart as usize) {
            Some(passes) => passes.load(Ordering::SeqCst),
            None => 0,
        }
    }

    /// Whether a hold gave up.
    pub fn gave_up(&self) -> bool {
        self.gave_up.load(Ordering::SeqCst)
    }

    /// Holds until this pass of another hart has begun.
    fn hold_for(&self, other: u32, pass: u64) {
        for load in 1..=LOADS {
            if self.passes(other) >= pass {
                return;
            }
            if load % LOADS_IN_A_ROW == 0 {
                thread::yield_now();
            }
        }
        self.gave_up.store(true, Ordering::SeqCst);
    }
}

impl Gate for HoldingGate {
    fn pass(&self, hart: u32) {
        let Some(passes) = self.passes.get(hart as usize) else {
            return;
        };
        match (hart, passes.fetch_add(1, Ordering::SeqCst).wrapping_add(1)) {
            (0, 1) => self.hold_for(1, AHEAD),
            (1, 1) => self.hold_for(0, 1),
            (0, LATER) => self.hold_for(1, LATER),
            (1, LATER) => self.hold_for(0, LATER),
            _ => {}
        }
    }
}
