// How a line starts.
ghost use Rattle.std.specs.Prelude.{◌≡◌, ℕ, ◌+◌, ◌≤◌, ◌<◌, [], Some, vec_len, vec_capacity, IfOk};
ghost use Rattle.tm_turn.specs.Seats.{AreNew};
ghost use Rattle.tm_turn.specs.Views.{first_view, fresh_view};

use super::{Line, LineSeat};
use crate::bells::Bells;
use crate::kept::Kept;
use crate::steps::Deal;
use crate::table::{About, TableSeat};
use atomic_table::Table;
use std::alloc::Global;
use std::snapshot::Snapshot;
use tm_base::NoMemory;

/// The line, and its first seat at the table.
pub fn lay<T: Kept>(
    alloc: Global,
    value: T,
    seats: u32,
) -> Result<(Line<T>, TableSeat<T>), NoMemory>
    requires some { 0 < seats }
    requires empty { T.history value ≡ [] }
    ensures line { IfOk result (λ r. (r.0.fixed ≡ Some (T.fixed value)) × (r.0.seats ≡ seats)) }
    ensures first { IfOk result (λ r.
        (r.1.table_id ≡ r.0.table) × (r.1.me ≡ (first_view (T.fixed value) seats, []))) }
{
    let bells = Bells::hang(alloc, seats)?;
    let about = About {
        value: Snapshot::of(&value),
        seats,
    };
    let Ok(mut slots) = Vec::with_capacity(alloc, 1) else {
        return Err(NoMemory);
    };
    slots.push_reserved(Some(value));
    match Table::new(alloc, &[0, 0, 0], slots, &about) {
        Ok((table, first)) => Ok((Line { table, bells }, first)),
        Err(_) => Err(NoMemory),
    }
}

/// Splits the other seats from the first.
pub fn deal<T: Kept>(
    line: &Line<T>,
    first: &mut TableSeat<T>,
    rest: &mut Vec<LineSeat<T>>,
    seats: u32,
)
    requires seats { (line.now.seats ≡ seats) × (0 < seats) }
    requires first { (first.old.table_id ≡ line.now.table)
        × (first.old.me ≡ (fresh_view line.now.fixed 0 seats 1, [])) }
    requires room { (rest.old.items ≡ []) × (seats ≤ vec_capacity rest.old) }
    ensures first { (first.new.table_id ≡ line.now.table)
        × (first.new.me ≡ (fresh_view line.now.fixed 0 seats seats, [])) }
    ensures rest { (vec_len rest.new + 1 ≡ seats) × AreNew line.now 1 rest.new.items }
    ensures room { vec_capacity rest.new ≡ vec_capacity rest.old }
{
    for number in 1..seats {
        let seat = line.table.shared.split_seat::<Deal>(first);
        rest.push_reserved(LineSeat {
            number,
            entries: 0,
            seat,
        });
    }
}
