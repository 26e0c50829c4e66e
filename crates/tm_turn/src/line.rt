// A line and its seats.
ghost use Rattle.std.specs.Prelude.{◌≡◌, ◌≤◌, ◌^◌, ◌<◌, ◌++◌, true, false, [], Some, length, drop, max, vec_capacity};
ghost use Rattle.std.specs.Prelude.{IfOk};
ghost use Rattle.tm_turn.specs.History.{made_by, BeginsWith, AddsAtMostOne, HasNoneFrom};
ghost use Rattle.tm_turn.specs.Seats.{AreNew, AreAllOutside, BearsOutAll};

mod closing;
mod opening;
mod turns;

use crate::bells::Bells;
use crate::kept::Kept;
use crate::steps::{Count, Draw, PassOn};
use crate::table::{About, COUNT, FirstCome, SERVING, TICKET, TableSeat, VALUE, View};
use atomic_table::Table;
use closing::{finish, gather, take_first};
use opening::{deal, lay};
use std::alloc::Global;
use std::marker::Model;
use std::sync::Wait;
use tm_base::NoMemory;
use turns::{wait, write_down};

/// A line of seats before one value. It may be shared between threads where the value may cross them.
///
/// Contracts see a line as which line it is, the fixed part of its value, and how many seats it has.
#[derive(Drop)]
pub struct Line<T: Kept> {
    table: Table<Option<T>, View<T::Entry, T::Fixed>, About<T>, FirstCome, Global>,
    // Where seats sleep that wait for their turn.
    bells: Bells,
}

impl<T: Kept> Model for Line<T> {
    ghost use Rattle.std.specs.Prelude.{◌≡◌, ◌<◌, Some};
    ghost use Rattle.tm_turn.specs.Seats.{LineId};

    ghost Value = { LineId T.Fixed };

    ghost view = { λ l. record {
      table = l.table.shared.table_id;
      fixed = Some (T.fixed l.table.shared.key.value.value);
      seats = l.table.shared.key.seats;
    } };

    ghost invariant = { λ l. (l.table.shared.table_id.words ≡ 3)
        × (l.table.shared.table_id.slots ≡ 1)
        × (0 < l.table.shared.key.seats) };
}

/// A seat of a line, with which one thread at a time takes the value. A seat that is dropped can't be had again, and
/// the line can't be closed without it.
///
/// Contracts see a seat as its line, its `number`, whether it is `inside`, which is to say that it has the value, what
/// it has `seen` of the history, `mine`, the entries that it made, and `counted`, the greatest count that it has read.
#[derive(Drop)]
pub struct LineSeat<T: Kept> {
    number: u32,
    // How many entries the value had when the seat took it.
    entries: u64,
    seat: TableSeat<T>,
}

impl<T: Kept> Model for LineSeat<T> {
    ghost use Rattle.tm_turn.specs.Seats.{SeatState, seat_state, IsSeat};

    ghost Value = { SeatState T.Entry T.Fixed };

    ghost view = { λ s. seat_state s.seat.table_id s.seat.me.0 };

    ghost invariant = { λ s. IsSeat T.maker s.number s.entries s.seat.me };
}

impl<T: Kept> LineSeat<T> {
    /// The seat's number, counted from 0. What the seat has seen has its own entries, and no other, under this number.
    pub fn number(&self) -> u32
        ensures number { result ≡ self.now.number }
        ensures own { made_by T.maker self.now.number self.now.seen ≡ self.now.mine }
    {
        self.number
    }
}

impl<T: Kept> Line<T> {
    /// A line before a value whose history is empty, and its seats in the order of their numbers, from 0 on. The list
    /// of seats has room for as many as were asked for, and no more.
    pub fn start(
        alloc: Global,
        value: T,
        seats: u32,
    ) -> Result<(Line<T>, Vec<LineSeat<T>>), NoMemory>
        requires some { 0 < seats }
        requires empty { T.history value ≡ [] }
        ensures line { IfOk result (λ r. (r.0.fixed ≡ Some (T.fixed value)) × (r.0.seats ≡ seats)) }
        ensures seats { IfOk result (λ r. (length r.1.items ≡ seats) × AreNew r.0 0 r.1.items) }
        ensures room { IfOk result (λ r. vec_capacity r.1 ≡ seats) }
    {
        let Ok(mut all) = Vec::with_capacity(alloc, seats as usize) else {
            return Err(NoMemory);
        };
        let (line, mut first) = lay(alloc, value, seats)?;
        deal(&line, &mut first, &mut all, seats);
        let first = LineSeat {
            number: 0,
            entries: 0,
            seat: first,
        };
        let Ok(()) = all.insert(0, first) else {
            unreachable!()
        };
        Ok((line, all))
    }

    /// Draws a ticket, waits for its turn, and takes the value. It looks for its turn some times in a row, and then
    /// sleeps until who leaves passes the turn on to it.
    ///
    /// Its turn comes once everyone who drew a ticket before has left, if they do.
    pub fn enter<R: Wait>(&self, rt: &R, seat: &mut LineSeat<T>) -> T
        requires line { seat.old.line ≡ self.now }
        requires outside { seat.old.inside ≡ false }
        ensures fixed { Some (T.fixed result) ≡ self.now.fixed }
        ensures begins { BeginsWith (T.history result) seat.old.seen }
        ensures own { made_by T.maker seat.old.number (T.history result) ≡ seat.old.mine }
        ensures counted { seat.old.counted ≤ length (T.history result) }
        ensures small { length (T.history result) < 2 ^ 64 }
        ensures seat { seat.new ≡ record seat.old { inside = true; seen = T.history result } }
    {
        let shared = &self.table.shared;
        let ticket = shared.fetch_add::<Draw>(&mut seat.seat, TICKET, 1);
        wait(rt, shared, &self.bells, &mut seat.seat, ticket);
        let Some(value) = shared.exchange(&mut seat.seat, VALUE, None) else {
            unreachable!()
        };
        seat.entries = value.entries();
        value
    }

    /// Hands the value back, with one entry more at most, passes the turn on, and wakes who is next where it sleeps. It
    /// doesn't wait.
    pub fn leave(&self, seat: &mut LineSeat<T>, value: T)
        requires line { seat.old.line ≡ self.now }
        requires inside { seat.old.inside ≡ true }
        requires fixed { Some (T.fixed value) ≡ self.now.fixed }
        requires history { AddsAtMostOne T.maker seat.old.number seat.old.seen (T.history value) }
        requires small { length (T.history value) < 2 ^ 64 }
        ensures seat { seat.new ≡ record seat.old {
          inside = false;
          seen = T.history value;
          mine = seat.old.mine ++ drop (length seat.old.seen) (T.history value);
        } }
        ensures own { made_by T.maker seat.new.number seat.new.seen ≡ seat.new.mine }
    {
        let shared = &self.table.shared;
        write_down(shared, &mut seat.seat, seat.entries, &value);
        let _nothing = shared.exchange(&mut seat.seat, VALUE, Some(value));
        let served = shared.fetch_add::<PassOn>(&mut seat.seat, SERVING, 1);
        self.bells.ring(served.wrapping_add(1));
    }

    /// How many entries there are, by one load. It doesn't wait, whoever is inside, and one seat never reads less than
    /// it has read before.
    pub fn count(&self, seat: &mut LineSeat<T>) -> u64
        requires { seat.old.line ≡ self.now }
        ensures seen { length seat.old.seen ≤ result }
        ensures later { seat.old.counted ≤ result }
        ensures seat { seat.new ≡ record seat.old { counted = max seat.old.counted result } }
    {
        self.table.shared.load::<Count>(&mut seat.seat, COUNT)
    }

    /// How many entries there are, by one load for which no seat is needed. No contract tells of it. It doesn't wait.
    pub fn glance(&self) -> u64 {
        self.table.shared.peek(COUNT)
    }

    /// Ends the line, and gives the value back. It needs all seats, in any order.
    pub fn close(self, mut seats: Vec<LineSeat<T>>) -> T
        requires { AreAllOutside self seats.items }
        ensures fixed { Some (T.fixed result) ≡ self.fixed }
        ensures seats { BearsOutAll T.maker (T.history result) seats.items }
        ensures strangers { HasNoneFrom T.maker self.seats (T.history result) }
    {
        let mut first = take_first(&self, &mut seats);
        gather(&self, &mut first, seats);
        finish(self, first)
    }
}
