// The guest under the lock.
ghost use Rattle.std.specs.Prelude.{◌≤◌, ◌≡◌, ◌↔◌, ◌<◌, ◌^◌, [], IsTrue};
ghost use Rattle.tm_world.specs.Place.{harts};
ghost use Rattle.tm_world.specs.Script.{FaultedRun};
ghost use Rattle.tm_guest.specs.Guested.{run};
ghost use Rattle.tm_harts.specs.Idle.{NoIdle};
ghost use Rattle.tm_harts.specs.Turns.{HoldsBack, AnswersOrNone};

use std::marker::Model;
use tm_guest::{Guest, Turn};
use tm_plan_cases::{Event, Program};
use tm_plan_script::Faults;
use tm_turn::Kept;

/// What never changes of a guest. Contracts speak of it, and no value of it is made.
pub struct Setup {
    pub program: Program,
    pub faults: Faults,
    pub limit: u64,
}

/// A guest in whose journal no step is an idle read, which is a read of another hart's flag, after the hart has
/// written its own in its phase, that finds less than the phase's number and 1. Contracts see the guest.
#[derive(Drop)]
pub struct Held<'a> {
    guest: Guest<'a>,
}

impl<'a> Model for Held<'a> {
    ghost use Rattle.tm_guest.specs.Guested.{Guested};
    ghost use Rattle.tm_harts.specs.Idle.{NoIdle};

    ghost Value = { Guested };

    ghost view = { λ h. h.guest };

    ghost invariant = { λ h. NoIdle h.guest };
}

impl<'a> Kept for Held<'a> {
    type Entry = Event;

    type Fixed = Setup;

    ghost use Rattle.tm_harts.specs.Mills.{maker_of, setup_of};

    ghost history = { λ h. h.journal };

    ghost maker = { maker_of };

    ghost fixed = { setup_of };

    fn entries(&self) -> u64 {
        self.guest.journal().len()
    }
}

impl<'a> Held<'a> {
    /// A guest before its first step.
    pub(crate) fn new(guest: Guest<'a>) -> Held<'a>
        requires { guest.journal ≡ [] }
        ensures { result ≡ guest.entry }
    {
        Held { guest }
    }

    /// How many harts the program has: one at least.
    pub(crate) fn harts(&self) -> u32
        ensures is { result ≡ harts self.now.program }
        ensures some { 1 ≤ result }
    {
        self.guest.harts()
    }

    /// A turn of a hart. It makes no event where the hart holds back, and answers `None` there.
    pub(crate) fn turn(&mut self, hart: u32) -> Option<Turn>
        requires { hart < harts self.old.program }
        ensures answer { AnswersOrNone self.old hart result self.new }
        ensures limit { self.old.limit < 2 ^ 64 }
    {
        if self.holds_back(hart) {
            return None;
        }
        Some(self.guest.advance(hart))
    }

    /// The guest. Its journal is a run of its program that its script has changed.
    pub(crate) fn into_guest(self) -> Guest<'a>
        ensures same { result ≡ self.entry }
        ensures run { FaultedRun result.program result.faults (run result) }
        ensures no_idle { NoIdle result }
    {
        let Held { guest } = self;
        // What the guest's type keeps of its journal, the call that lends the journal says.
        let _ = guest.journal();
        guest
    }

    /// Whether a hart isn't at its halt mark, and there is room for its next step, but this would be an idle read.
    fn holds_back(&self, hart: u32) -> bool
        requires { hart < harts self.now.program }
        ensures answer { IsTrue result ↔ HoldsBack self.now hart }
        ensures limit { self.now.limit < 2 ^ 64 }
    {
        self.guest.journal().len() < self.guest.limit() && self.guest.waits(hart)
    }
}
