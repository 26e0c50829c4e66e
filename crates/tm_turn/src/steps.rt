// What each step at the table tells the seat that makes it.
ghost use Rattle.std.specs.Prelude.{List, []};
ghost use Rattle.tm_turn.specs.Steps.{Draws, Looks, Passes, Records, Counts};
ghost use Rattle.tm_turn.specs.Views.{after_giving, given_view, joined_view, spent_view};

use crate::kept::Kept;
use crate::table::View;
use atomic_table::{Join, Play, Split};
use std::marker::{Brand, PhantomData};

/// Draws a ticket.
pub struct Draw;

impl<T: Kept> Play<Option<T>, View<T::Entry, T::Fixed>> for Draw {
    ghost then = { Draws T.maker T.history T.fixed };
}

/// Looks whether its turn has come, and takes the slot where it has.
pub struct Look;

impl<T: Kept> Play<Option<T>, View<T::Entry, T::Fixed>> for Look {
    ghost then = { Looks T.maker T.history T.fixed };
}

/// The entries that a step records, picked where it is made.
pub trait News<E> {
    ghost news: { List E };
}

impl<E> News<E> for Brand {
    ghost news = { [] };
}

/// Records what was added to the history.
pub struct Record<J> {
    news: PhantomData<J>,
}

impl<T: Kept, J: News<T::Entry>> Play<Option<T>, View<T::Entry, T::Fixed>> for Record<J> {
    ghost then = { Records T.maker T.history T.fixed J.news };
}

/// Passes the turn on, and puts the slot back.
pub struct PassOn;

impl<T: Kept> Play<Option<T>, View<T::Entry, T::Fixed>> for PassOn {
    ghost then = { Passes T.maker T.history T.fixed };
}

/// Reads the count of entries.
pub struct Count;

impl<T: Kept> Play<Option<T>, View<T::Entry, T::Fixed>> for Count {
    ghost then = { Counts T.maker T.history T.fixed };
}

/// Gives the next number to a new seat, and takes in what a seat knew at its end.
pub struct Deal;

impl<E, F> Split<View<E, F>> for Deal {
    ghost left = { after_giving };

    ghost right = { given_view };
}

impl<E, F> Join<View<E, F>> for Deal {
    ghost both = { joined_view };

    ghost spent = { spent_view };
}
