// The drains of a simulation.
ghost use Rattle.std.specs.Prelude.{◌≡◌, ◌++◌, ◌∷◌, [], ◌<◌, length, IfOk};

use std::alloc::Global;
use std::marker::Model;
use tm_base::NoMemory;

/// A write that drained, in 8 bytes: the number of steps that had been made by then, and the number of steps before the
/// write's own, whose event has its hart.
#[derive(Clone, Copy)]
pub struct DrainEntry {
    pub after: u32,
    pub write: u32,
}

const _: () = prove!(size_of::<DrainEntry>() == 8);

/// The writes that drained, in order, and the room that was taken for them.
#[derive(Drop)]
pub struct Drains {
    entries: Vec<DrainEntry>,
    room: u64,
}

impl Model for Drains {
    ghost use Rattle.std.specs.Prelude.{◌≤◌, length};
    ghost use Rattle.std.specs.Vec.{vec_capacity};
    ghost use Rattle.tm_buffer.specs.Listed.{Stored};

    ghost Value = { Stored };

    ghost view = { λ d. record { entries = d.entries.items; room = d.room } };

    ghost invariant = { λ d. (length d.entries.items ≤ d.room) × (d.room ≤ vec_capacity d.entries) };
}

impl Drains {
    /// No drain, with room for so many.
    pub fn start(alloc: Global, room: u64) -> Result<Drains, NoMemory>
        ensures { IfOk result (λ d. d ≡ record { entries = []; room = room }) }
    {
        match Vec::with_capacity(alloc, room as usize) {
            Ok(entries) => Ok(Drains { entries, room }),
            Err(_) => Err(NoMemory),
        }
    }

    /// Appends a drain. There has to be room for it.
    pub fn put(&mut self, entry: DrainEntry)
        requires { length self.old.entries < self.old.room }
        ensures { self.new
            ≡ record { entries = self.old.entries ++ entry ∷ []; room = self.old.room } }
    {
        self.entries.push_reserved(entry);
    }
}
