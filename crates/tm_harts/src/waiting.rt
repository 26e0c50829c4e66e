// How a seat waits whose hart holds back.
//
// What it waits for is another hart's event, so it looks at the count of events, and sleeps where this doesn't grow.
// Nothing here takes part in a turn: it only decides when the next turn is taken.
//
// No event is slept through. A seat says that it sleeps, and then looks at the count once more before it does. Where
// that look comes before an event is counted, who rings after that event finds that somebody sleeps, and changes
// `rings` before it wakes all. A seat sleeps only while `rings` is what it was before it said that it sleeps, so it is
// woken, or doesn't fall asleep. Else the look sees the event. Not each event is rung for: seats ring at each 64th
// event of the journal, where they hold back after an event of their own, and at their end; so a ring follows each
// event unless the seats that are awake make neither a 64th event nor come to one of these. A sleep takes a
// millisecond at most besides, and each of the first ones far less, since a gate may wait for so many turns of a seat
// that sleeps.
//
// Where no other seat's work is under way none sleeps, since nobody would ring.
use crate::mill::Mill;
use std::hint;
use std::sync::Wait;
use std::sync::atomic::{AtomicU64, Ordering};
use std::time::Duration;

/// How many times in a row a seat looks at the count until it sleeps.
const LOOKS: u32 = 200;

/// After so many turns in a row that answered `None` a seat waits before each next one.
const ASKS: u32 = 4;

/// So many turns in a row that answered `None` are each followed by a short sleep at most.
const SHORT_SLEEPS: u32 = 2000;

/// How many microseconds a short sleep takes at most.
const SHORT_SLEEP: u64 = 10;

/// How many microseconds each other sleep takes at most.
const SLEEP: u64 = 1000;

/// For how many turns that answered `None` a sleep counts that isn't short, and in which no event came.
const SLEEP_COUNTS: u32 = 1000;

/// Seats ring at the events whose place is a multiple of this.
const EVENTS_TO_A_RING: u64 = 64;

/// What the seats of a mill share that are driven at once.
#[derive(Drop)]
pub struct Waiting {
    // How many seats' work has begun and hasn't ended.
    under_way: AtomicU64,
    // How many seats sleep, or are about to.
    sleepers: AtomicU64,
    // How often it was rung. Seats sleep at its address.
    rings: AtomicU64,
}

impl Waiting {
    /// No seat's work has begun.
    pub fn new() -> Waiting {
        Waiting {
            under_way: AtomicU64::new(0),
            sleepers: AtomicU64::new(0),
            rings: AtomicU64::new(0),
        }
    }

    /// A seat's work begins.
    pub fn begin(&self) {
        self.under_way.fetch_add(1, Ordering::SeqCst);
    }

    /// A seat's work ends.
    pub fn end(&self) {
        self.under_way.fetch_sub(1, Ordering::SeqCst);
        self.ring();
    }

    /// A seat made the event at this place.
    pub fn made(&self, place: u64) {
        if place % EVENTS_TO_A_RING == 0 {
            self.ring();
        }
    }

    /// A seat's turn answered `None`, after so many in a row that did, and after it knew of so many events. It waits
    /// where this is to wait for, and answers how many in a row there are now.
    pub fn held_back<'a, R: Wait>(&self, rt: &R, mill: &Mill<'a>, before: u32, known: u64) -> u32 {
        if before == 0 {
            self.ring();
        }
        let now = before.saturating_add(1);
        if before < ASKS || self.under_way.load(Ordering::SeqCst) <= 1 || has_grown(mill, known) {
            return now;
        }
        if before < SHORT_SLEEPS {
            self.sleep(rt, mill, known, SHORT_SLEEP);
            return now;
        }
        self.sleep(rt, mill, known, SLEEP);
        if mill.glance() == known {
            return now.saturating_add(SLEEP_COUNTS);
        }
        now
    }

    /// Sleeps until the mill has other events than these, or for a shorter time, of so many microseconds at most.
    fn sleep<'a, R: Wait>(&self, rt: &R, mill: &Mill<'a>, known: u64, most: u64) {
        let rings = self.rings.load(Ordering::SeqCst) % (1 << 32);
        self.sleepers.fetch_add(1, Ordering::SeqCst);
        if mill.glance() == known {
            self.rings
                .park_timeout(rt, rings as u32, Duration::from_micros(most));
        }
        self.sleepers.fetch_sub(1, Ordering::SeqCst);
    }

    /// Wakes all that sleep. Where nobody does, it asks nothing of the system.
    fn ring(&self) {
        if self.sleepers.load(Ordering::SeqCst) > 0 {
            self.rings.fetch_add(1, Ordering::SeqCst);
            self.rings.wake_all();
        }
    }
}

/// Looks at the count of events until it has grown, `LOOKS` times at most. Whether it has.
fn has_grown<'a>(mill: &Mill<'a>, known: u64) -> bool {
    for _ in 0..LOOKS {
        if mill.glance() != known {
            return true;
        }
        hint::spin_loop();
    }
    false
}
