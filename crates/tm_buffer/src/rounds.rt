// Drawn rounds.
ghost use Rattle.std.specs.Prelude.{◌≡◌, ◌+◌, ◌<◌, ◌≤◌, ◌↔◌, [], length, IsTrue, IsFalse};
ghost use Rattle.tm_base.specs.declared.limits.TheConstants.{MOST_EVENTS};
ghost use Rattle.tm_place.specs.declared.drawing.TheConstants.{CASE_STREAMS};
ghost use Rattle.tm_world.specs.Place.{harts};
ghost use Rattle.tm_guest.specs.declared.turn.RoundEnd.TheVariants as ends;
ghost use Rattle.tm_buffer.specs.Seen.{buffer};
ghost use Rattle.tm_buffer.specs.Budget.{HasBudget};
ghost use Rattle.tm_buffer.specs.Rounds.{After, AllHalted, EndsAs, Goes, Grows, IsFull, IsSame, to_drain};

use crate::guest::BufferGuest;
use tm_base::CASE_ROOM;
use tm_guest::{RoundEnd, Turn};
use tm_place::{STREAM_SLOTS, choice, draw};

impl BufferGuest<'_> {
    /// Whether all harts are at their halt marks.
    pub fn all_halted(&self) -> bool
        ensures { IsTrue result ↔ AllHalted self.now }
    {
        for h in 0..self.harts() {
            if !self.halted(h) {
                return false;
            }
        }
        true
    }

    /// Makes rounds until all harts are at their halt marks or the journal is full. In each the harts come in turn: a
    /// hart may drain one write, as the seed draws, and then it steps, unless it is at halt. Where the program is sound
    /// and the limit is at least its budget of drawn rounds, all harts come to halt.
    pub fn run_drawn(&mut self, seed: u64) -> RoundEnd
        requires { self.old.journal ≡ [] }
        ensures same { IsSame self.old self.new }
        ensures end { EndsAs seed self.old result self.new }
        ensures bounded { HasBudget self.old → result ≡ ends.Done }
    {
        // What the machine's type keeps of its moments, the call that counts the events says.
        let _ = self.events();
        let mut t = 0;
        while !self.all_halted() {
            if !self.drawn_round(seed, t) {
                return RoundEnd::Full;
            }
            t += 1;
        }
        RoundEnd::Done
    }

    /// Lets each hart drain one write, if one is to drain, and make one step; stops where the journal is full.
    fn drawn_round(&mut self, seed: u64, t: u64) -> bool
        requires some { ¬ AllHalted self.old }
        ensures same { IsSame self.old self.new }
        ensures whole { IsTrue result → Goes seed t self.old (t + 1) 0 self.new }
        ensures grows { IsTrue result → Grows self.old self.new }
        ensures part { IsFalse result → IsFull seed t self.old self.new }
        ensures bound { length self.old.journal ≤ MOST_EVENTS }
    {
        let _ = self.events();
        for h in 0..self.harts() {
            self.drain_drawn(seed, t, h);
            match self.advance(h) {
                Turn::Stepped { .. } | Turn::Halted => {}
                Turn::Full => return false,
            }
        }
        true
    }

    /// Lets one write of a hart drain, if one is to drain in this round, and may.
    fn drain_drawn(&mut self, seed: u64, t: u64, h: u32)
        requires below { h < harts self.old.program }
        requires few { h < CASE_STREAMS }
        ensures { After (to_drain seed t h (length (buffer self.old h))) self.old h self.new }
    {
        match drawn_write(seed, t, h, self.waiting(h) as u32) {
            Some(which) => {
                let _ = self.drain(h, which);
            }
            None => {}
        }
    }
}

/// Which of a hart's `waiting` writes is to drain in round `t`, if one is.
fn drawn_write(seed: u64, t: u64, h: u32, waiting: u32) -> Option<u32>
    requires { h < CASE_STREAMS }
    ensures { result ≡ to_drain seed t h waiting }
{
    if t % 8 == 7 {
        return Some(0);
    }
    if waiting == 0 {
        return None;
    }
    let case = (t / u64::from(STREAM_SLOTS) % u64::from(CASE_ROOM)) as u32;
    let slot = (t % u64::from(STREAM_SLOTS)) as u32;
    if choice(draw(seed, case, h, slot, 0), 2) == 1 {
        return Some(choice(draw(seed, case, h, slot, 1), waiting));
    }
    None
}
