// How a seat waits for its turn, and records its entry.
ghost use Rattle.std.specs.Prelude.{◌≡◌, ◌+◌, ◌^◌, ◌<◌, true, [], ◌∷◌, length, drop};
ghost use Rattle.std.specs.Prelude.{IsTrue, IsFalse};
ghost use Rattle.tm_turn.specs.History.{AddsAtMostOne};
ghost use Rattle.tm_turn.specs.Steps.{WaitsFor, Comes};
ghost use Rattle.tm_turn.specs.Views.{recorded};

use crate::bells::Bells;
use crate::kept::Kept;
use crate::steps::{Look, News, Record};
use crate::table::{Board, COUNT, SERVING, TableSeat};
use std::hint;
use std::marker::Brand;
use std::sync::Wait;

/// How many times in a row a seat looks for its turn until it sleeps.
const LOOKS: u32 = 200;

/// Waits for the ticket's turn.
pub fn wait<T: Kept, R: Wait>(
    rt: &R,
    shared: &Board<T>,
    bells: &Bells,
    seat: &mut TableSeat<T>,
    ticket: u64,
)
    requires line { (seat.old.table_id ≡ shared.now.table_id) × (shared.now.table_id.words ≡ 3) }
    requires waits { WaitsFor T.maker T.history T.fixed ticket seat.old.me }
    ensures same { (seat.new.table_id ≡ seat.old.table_id) × (seat.new.id ≡ seat.old.id) }
    ensures comes { Comes T.maker T.history T.fixed seat.old.me seat.new.me }
{
    for _ in rt.forever() {
        if look_on(shared, seat, ticket) {
            return;
        }
        bells.lie_down(ticket);
        if look(shared, seat, ticket) {
            bells.get_up(ticket);
            return;
        }
        bells.sleep(rt, ticket);
    }
    unreachable!()
}

// Looks for the ticket's turn until it has come, `LOOKS` times at most.
fn look_on<T: Kept>(shared: &Board<T>, seat: &mut TableSeat<T>, ticket: u64) -> bool
    requires line { (seat.old.table_id ≡ shared.now.table_id) × (shared.now.table_id.words ≡ 3) }
    requires waits { WaitsFor T.maker T.history T.fixed ticket seat.old.me }
    ensures same { (seat.new.table_id ≡ seat.old.table_id) × (seat.new.id ≡ seat.old.id) }
    ensures comes { IsTrue result → Comes T.maker T.history T.fixed seat.old.me seat.new.me }
    ensures waits { IsFalse result → seat.new.me ≡ seat.old.me }
{
    for _ in 0..LOOKS {
        if look(shared, seat, ticket) {
            return true;
        }
        hint::spin_loop();
    }
    false
}

// Whether the ticket's turn has come.
fn look<T: Kept>(shared: &Board<T>, seat: &mut TableSeat<T>, ticket: u64) -> bool
    requires line { (seat.old.table_id ≡ shared.now.table_id) × (shared.now.table_id.words ≡ 3) }
    requires waits { WaitsFor T.maker T.history T.fixed ticket seat.old.me }
    ensures same { (seat.new.table_id ≡ seat.old.table_id) × (seat.new.id ≡ seat.old.id) }
    ensures comes { IsTrue result → Comes T.maker T.history T.fixed seat.old.me seat.new.me }
    ensures waits { IsFalse result → seat.new.me ≡ seat.old.me }
{
    if shared.load::<Look>(seat, SERVING) == ticket {
        return true;
    }
    false
}

// Records the one entry that the value has more than the seat has seen. The step doesn't need the value: the proof of
// the call picks the news out of it.
fn record<T: Kept, J: News<T::Entry>>(shared: &Board<T>, seat: &mut TableSeat<T>, value: &T)
    requires line { (seat.old.table_id ≡ shared.now.table_id) × (shared.now.table_id.words ≡ 3) }
    requires inside { (seat.old.me.0.live ≡ true) × (seat.old.me.0.inside ≡ true) }
    requires news { J.news ≡ drop (length seat.old.me.0.seen) (T.history value.now) }
    requires one { (e : T.Entry)
        × (drop (length seat.old.me.0.seen) (T.history value.now) ≡ e ∷ [])
        × (T.maker e ≡ seat.old.me.0.number) }
    requires room { length seat.old.me.0.seen + 1 < 2 ^ 64 }
    ensures same { (seat.new.table_id ≡ seat.old.table_id) × (seat.new.id ≡ seat.old.id) }
    ensures recorded { seat.new.me
        ≡ (recorded seat.old.me.0 (drop (length seat.old.me.0.seen) (T.history value.now)), seat.old.me.1) }
{
    let _ = value;
    shared.fetch_add::<Record<J>>(seat, COUNT, 1);
}

/// Records the entry that the value has more than the seat has seen, if there is one.
pub fn write_down<T: Kept>(shared: &Board<T>, seat: &mut TableSeat<T>, entries: u64, value: &T)
    requires line { (seat.old.table_id ≡ shared.now.table_id) × (shared.now.table_id.words ≡ 3) }
    requires inside { (seat.old.me.0.live ≡ true)
        × (seat.old.me.0.inside ≡ true)
        × (entries ≡ length seat.old.me.0.seen) }
    requires history { AddsAtMostOne T.maker seat.old.me.0.number seat.old.me.0.seen (T.history value.now) }
    requires small { length (T.history value.now) < 2 ^ 64 }
    ensures same { (seat.new.table_id ≡ seat.old.table_id) × (seat.new.id ≡ seat.old.id) }
    ensures recorded { seat.new.me
        ≡ (recorded seat.old.me.0 (drop (length seat.old.me.0.seen) (T.history value.now)), seat.old.me.1) }
{
    if value.entries() != entries {
        record::<T, Brand>(shared, seat, value);
    }
}
