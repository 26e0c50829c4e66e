// How a line ends.
ghost use Rattle.std.specs.Prelude.{◌≡◌, ◌==◌, ℕ, ◌<◌, true, false, [], Some, length, slice_get};
ghost use mathlib.Core.Option.{some};
ghost use lib.ListN.{get_elem?};
ghost use Rattle.tm_turn.specs.declared.table.Facts.{Facts};
ghost use Rattle.tm_turn.specs.History.{HasNoneFrom};
ghost use Rattle.tm_turn.specs.Rule.{BearsOut, KnowsAll};
ghost use Rattle.tm_turn.specs.Seats.{SeatState, AreOutside, AreAllOutside, IsFirstOut, ToldFrom, facts_of_seat};
ghost use Rattle.tm_turn.specs.Views.{facts_of, with_facts};

use super::{Line, LineSeat};
use crate::kept::Kept;
use crate::steps::Deal;
use crate::table::{TableSeat, VALUE};

// The place of the first seat.
fn first_place<T: Kept>(line: &Line<T>, seats: &[LineSeat<T>]) -> usize
    requires { AreAllOutside line.now seats.now }
    ensures { (result < length seats.now)
        × ((s : SeatState T.Entry T.Fixed) → slice_get seats.now result ≡ Some s → s.number ≡ 0) }
{
    // Where a field is used, the line's invariant is known: it has a first seat.
    let _ = &line.table;
    let is_first = |seat: &LineSeat<T>| -> bool
        ensures { result ≡ (seat.now.number == 0) }
    { seat.number() == 0 };
    let Some(place) = seats.iter().position(is_first) else {
        unreachable!()
    };
    place
}

/// Takes the first seat out of all.
pub fn take_first<T: Kept>(line: &Line<T>, seats: &mut Vec<LineSeat<T>>) -> TableSeat<T>
    requires { AreAllOutside line.now seats.old.items }
    ensures place { result.table_id ≡ line.now.table }
    ensures first { IsFirstOut line.now seats.old.items seats.new.items result.me.0 }
{
    let place = first_place(line, seats.as_slice());
    let LineSeat {
        number: _,
        entries: _,
        seat,
    } = seats.remove(place);
    seat
}

// Joins one seat into the first.
fn absorb<T: Kept>(line: &Line<T>, first: &mut TableSeat<T>, seat: LineSeat<T>)
    requires first { first.old.table_id ≡ line.now.table }
    requires seat { (seat.line ≡ line.now) × (seat.inside ≡ false) }
    ensures same { first.new.table_id ≡ first.old.table_id }
    ensures told { first.new.me ≡ (with_facts first.old.me.0 (facts_of_seat seat), first.old.me.1) }
{
    let LineSeat {
        number: _,
        entries: _,
        seat,
    } = seat;
    line.table.shared.join_seat::<Deal>(first, seat);
}

/// Joins the other seats into the first.
pub fn gather<T: Kept>(line: &Line<T>, first: &mut TableSeat<T>, mut rest: Vec<LineSeat<T>>)
    requires first { first.old.table_id ≡ line.now.table }
    requires rest { AreOutside line.now rest.items }
    ensures same { first.new.table_id ≡ line.now.table }
    ensures view { first.new.me.0 ≡ record first.old.me.0 { joined = first.new.me.0.joined } }
    ensures told { ToldFrom 0 first.new.me.0 rest.items }
{
    while let Some(seat) = rest.pop() {
        absorb(line, first, seat);
    }
}

/// Gives the value back, once all seats were joined into the first.
pub fn finish<T: Kept>(line: Line<T>, first: TableSeat<T>) -> T
    requires place { first.table_id ≡ line.table }
    requires outside { (first.me.0.live ≡ true) × (first.me.0.inside ≡ false) }
    requires all { (first.me.0.given ≡ line.seats) × KnowsAll first.me.0 }
    ensures fixed { Some (T.fixed result) ≡ line.fixed }
    ensures first { BearsOut T.maker (T.history result) (facts_of first.me.0) }
    ensures others { (k : ℕ) (f : Facts T.Entry) → get_elem? first.me.0.joined k ≡ some f
        → BearsOut T.maker (T.history result) f }
    ensures strangers { HasNoneFrom T.maker line.seats (T.history result) }
{
    let Line { table, bells: _ } = line;
    let mut closed = table.close_with(first);
    let value = closed.take(VALUE);
    closed.free();
    let Some(value) = value else { unreachable!() };
    value
}
