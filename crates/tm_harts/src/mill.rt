// The mill and its seats.
ghost use Rattle.std.specs.Prelude.{◌≡◌, ◌≤◌, max, length, [], IfOk};
ghost use Rattle.tm_world.specs.Place.{harts};
ghost use Rattle.tm_world.specs.Script.{FaultedRun};
ghost use Rattle.tm_guest.specs.Guested.{run};
ghost use Rattle.tm_turn.specs.History.{made_by, BeginsWith};
ghost use Rattle.tm_turn.specs.Seats.{AreNew, BearsOutAll};
ghost use Rattle.tm_harts.specs.Idle.{NoIdle};
ghost use Rattle.tm_harts.specs.Mills.{guest_after, maker_of, IsOf, AreAllOf};
ghost use Rattle.tm_harts.specs.Turns.{IsTurn, Stays};

use crate::held::Held;
use std::alloc::Global;
use std::marker::Model;
use std::snapshot::Snapshot;
use std::sync::Wait;
use tm_base::NoMemory;
use tm_guest::{Guest, Turn};
use tm_turn::{Line, LineSeat};

/// A seat of a mill, with which one thread at a time takes a hart's turns. Its number is that of the hart. Contracts
/// see besides what it has `seen` of the journal, `mine`, the events of its hart in it, and `counted`, the greatest
/// number of events that it was told.
pub type Seat<'a> = LineSeat<Held<'a>>;

/// A guest whose harts take turns, each with a seat of its own.
///
/// Contracts see a mill as its line of seats, and the program, the script and the limit of the guest.
#[derive(Drop)]
pub struct Mill<'a> {
    line: Line<Held<'a>>,
    // The guest at the start, as contracts see it.
    start: Snapshot<Held<'a>>,
}

impl<'a> Model for Mill<'a> {
    ghost use Rattle.std.specs.Prelude.{◌≡◌, Some};
    ghost use Rattle.tm_world.specs.Place.{harts};
    ghost use Rattle.tm_harts.specs.Mills.{Milled, mill_of, setup_of};

    ghost Value = { Milled };

    ghost view = { λ m. mill_of m.line m.start.value };

    ghost invariant = { λ m. (m.line.fixed ≡ Some (setup_of m.start.value))
        × (m.line.seats ≡ harts m.start.value.program) };
}

impl<'a> Mill<'a> {
    /// A mill of a guest before its first step, and one seat for each hart, in the order of the harts.
    pub fn start(alloc: Global, guest: Guest<'a>) -> Result<(Mill<'a>, Vec<Seat<'a>>), NoMemory>
        requires { guest.journal ≡ [] }
        ensures guest { IfOk result (λ r. guest_after r.0 [] ≡ guest.entry) }
        ensures seats { IfOk result (λ r.
            (length r.1.items ≡ harts guest.entry.program) × AreNew r.0.line 0 r.1.items) }
        ensures all { IfOk result (λ r. AreAllOf r.0 r.1.items) }
    {
        let held = Held::new(guest);
        let harts = held.harts();
        let start = Snapshot::of(&held);
        let (line, seats) = Line::start(alloc, held, harts)?;
        Ok((Mill { line, start }, seats))
    }

    /// A turn of the seat's hart, which makes at most one event while it holds the guest.
    ///
    /// It answers `None`, and makes no event, where the hart holds back: where it isn't at its halt mark, the journal
    /// has fewer events than the limit, and the hart's next step would be an idle read. Else it answers what the
    /// guest's `advance` gives. It may wait.
    pub fn turn<R: Wait>(&self, rt: &R, seat: &mut Seat<'a>) -> Option<Turn>
        requires { IsOf self.now seat.old }
        ensures stays { Stays self.now seat.old seat.new }
        ensures begins { BeginsWith seat.new.seen seat.old.seen }
        ensures own { made_by maker_of seat.new.number seat.new.seen ≡ seat.new.mine }
        ensures turn { IsTurn self.now seat.old result seat.new }
    {
        let mut held = self.line.enter(rt, seat);
        let answer = held.turn(seat.number());
        self.line.leave(seat, held);
        answer
    }

    /// How many events there are, by one load. It doesn't wait, whoever holds the guest. The number is at least that
    /// of the events that the seat has seen, and at least what the seat was told before.
    pub fn progress(&self, seat: &mut Seat<'a>) -> u64
        requires { IsOf self.now seat.old }
        ensures stays { IsOf self.now seat.new }
        ensures seen { length seat.old.seen ≤ result }
        ensures told { seat.old.counted ≤ result }
        ensures seat { seat.new ≡ record seat.old { counted = max seat.old.counted result } }
    {
        self.line.count(seat)
    }

    /// How many events there are, by one load for which no seat is needed. No contract tells of it: it only decides
    /// when a seat that waits goes on.
    pub(crate) fn glance(&self) -> u64 {
        self.line.glance()
    }

    /// Ends the mill, and gives the guest back. It needs all seats, in any order.
    pub fn close(self, seats: Vec<Seat<'a>>) -> Guest<'a>
        requires { AreAllOf self seats.items }
        ensures guest { result ≡ guest_after self.entry result.journal }
        ensures seats { BearsOutAll maker_of result.journal seats.entry.items }
        ensures run { FaultedRun self.entry.program self.entry.faults (run result) }
        ensures no_idle { NoIdle result }
    {
        let Mill { line, start: _ } = self;
        line.close(seats).into_guest()
    }
}
