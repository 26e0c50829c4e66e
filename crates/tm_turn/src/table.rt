// The table of a line: its words and its slot, what the seats at it know, and its rule.
use crate::kept::Kept;
use atomic_table::{Seat, Shared, TableRule};
use std::collections::LinkedList;
use std::snapshot::Snapshot;

/// The word with the next ticket, modulo 2^64.
pub const TICKET: usize = 0;

/// The word with the ticket whose turn it is, modulo 2^64.
pub const SERVING: usize = 1;

/// The word with the number of entries.
pub const COUNT: usize = 2;

/// The one slot. It has the value, where no seat is inside.
pub const VALUE: usize = 0;

/// What a seat knows. Proofs alone speak of it: no value of it is made, and its numbers have no bound.
pub struct View<E, F> {
    /// False once the seat was joined into another.
    pub live: bool,
    pub number: u32,
    /// How many seats the line has.
    pub seats: u32,
    /// How many numbers this seat has given, its own among them; 0 where it gives none.
    pub given: u32,
    pub ticket: Option<u64>,
    pub inside: bool,
    /// The history, as the seat last saw it.
    pub seen: LinkedList<E>,
    /// The entries that the seat made.
    pub mine: LinkedList<E>,
    /// The greatest count of entries that the seat has read.
    pub counted: u64,
    /// The fixed part of the value; a spent seat has none.
    pub fixed: Option<F>,
    /// What the seats knew that were joined into this one.
    pub joined: LinkedList<Facts<E>>,
}

/// What a seat knows of the history.
pub struct Facts<E> {
    pub number: u32,
    pub seen: LinkedList<E>,
    pub mine: LinkedList<E>,
    pub counted: u64,
}

/// What the table is told when it is made.
#[derive(Drop)]
pub struct About<T> {
    pub value: Snapshot<T>,
    pub seats: u32,
}

/// The rule: the value is with the seat whose ticket is being served, or in the slot.
pub struct FirstCome;

impl<T: Kept> TableRule<Option<T>, View<T::Entry, T::Fixed>, About<T>> for FirstCome {
    ghost use Rattle.tm_turn.specs.Rule.{IsQueued};
    ghost use Rattle.tm_turn.specs.Views.{first_view};

    ghost holds = { λ key. IsQueued T.maker T.history T.fixed (T.fixed key.value.value) };

    ghost first = { λ key. first_view (T.fixed key.value.value) key.seats };
}

/// The words and the slot, as seats step on them.
pub type Board<T> = Shared<
    Option<T>,
    View<<T as Kept>::Entry, <T as Kept>::Fixed>,
    About<T>,
    FirstCome,
>;

/// A seat at the table.
pub type TableSeat<T> = Seat<Option<T>, View<<T as Kept>::Entry, <T as Kept>::Fixed>>;
