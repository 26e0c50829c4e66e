// Where seats sleep until their turn comes.
//
// Sleeping and ringing are no steps at the table: they only decide when a seat looks again.
//
// No wake-up is lost. Who waits lies down at the bell of its ticket, and then looks once more before it sleeps. Who
// leaves passes the turn on, and then rings the bell of the next ticket. Where that last look comes before the turn is
// passed on, lying down came before the ring: the bell is found to have a sleeper, and is set to `AWAKE` before the
// sleeper is woken. It sleeps on only while the bell says `ASLEEP`, so it is woken, or doesn't fall asleep. Else the
// last look sees the turn.
//
// Nobody else sleeps there. Tickets that are drawn and not passed on yet are of different seats, and follow one
// another, so there are no more of them than bells, and each has a bell of its own. (Where the tickets begin again at
// 0, after 2^64 turns, two could meet at one bell; no run makes so many.) A ring that comes late, for an earlier ticket
// of the same bell, wakes the sleeper too early; it then lies down again. Such a ring never sets the bell without
// waking who sleeps there, so it takes no wake-up away.
use std::alloc::Global;
use std::sync::Wait;
use std::sync::atomic::{AtomicU64, Ordering};
use tm_base::NoMemory;

/// What a bell says where nobody sleeps there, or who does is being woken.
const AWAKE: u32 = 0;

/// What a bell says where somebody sleeps there, or is about to.
const ASLEEP: u32 = 1;

/// A bell for each seat of a line. A ticket has the bell whose place is its number modulo the number of bells.
#[derive(Drop)]
pub struct Bells {
    bells: Vec<AtomicU64>,
}

impl Bells {
    /// Bells at which nobody sleeps.
    pub fn hang(alloc: Global, seats: u32) -> Result<Bells, NoMemory> {
        let mut bells = Vec::new(alloc);
        for _ in 0..seats {
            bells
                .push(AtomicU64::new(u64::from(AWAKE)))
                .map_err(|_| NoMemory)?;
        }
        Ok(Bells { bells })
    }

    /// Says that who has the ticket is about to sleep.
    pub fn lie_down(&self, ticket: u64) {
        if let Some(bell) = self.bell(ticket) {
            bell.store(u64::from(ASLEEP), Ordering::SeqCst);
        }
    }

    /// Sleeps until the ticket's bell is rung, or for a shorter time. It doesn't sleep where the bell was rung since
    /// `lie_down`.
    pub fn sleep<R: Wait>(&self, rt: &R, ticket: u64) {
        if let Some(bell) = self.bell(ticket) {
            bell.park(rt, ASLEEP);
        }
    }

    /// Says that who has the ticket doesn't sleep.
    pub fn get_up(&self, ticket: u64) {
        if let Some(bell) = self.bell(ticket) {
            bell.store(u64::from(AWAKE), Ordering::SeqCst);
        }
    }

    /// Wakes who has the ticket, where it sleeps. It doesn't wait, and where nobody sleeps it asks nothing of the
    /// system.
    pub fn ring(&self, ticket: u64) {
        let Some(bell) = self.bell(ticket) else {
            return;
        };
        if bell.load(Ordering::SeqCst) == u64::from(ASLEEP) {
            bell.store(u64::from(AWAKE), Ordering::SeqCst);
            bell.wake_one();
        }
    }

    // The ticket's bell: there is one where there are any.
    fn bell(&self, ticket: u64) -> Option<&AtomicU64> {
        let place = ticket.checked_rem(self.bells.len() as u64)?;
        self.bells.get(place as usize)
    }
}
