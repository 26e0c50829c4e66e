// The journal of a simulation.
ghost use Rattle.std.specs.Prelude.{◌≡◌, ◌++◌, ◌∷◌, [], ◌<◌, length, slice_index_or, IfOk};
ghost use Rattle.tm_plan_journal.specs.Entries.{event_of as event_in};

use std::alloc::Global;
use std::marker::Model;
use tm_base::NoMemory;
use tm_plan_cases::Event;
use tm_table::Access;

/// What kind of access an entry has.
#[derive(Clone, Copy)]
pub enum Kind {
    Quiet,
    Read,
    Write,
}

/// An event, in 40 bytes.
#[derive(Clone, Copy)]
pub struct Entry {
    pub pc: u64,
    pub addr: u64,
    pub value: u64,
    pub word: u32,
    pub hart: u32,
    pub kind: Kind,
    pub width: u8,
}

const _: () = prove!(size_of::<Entry>() == 40);

/// The events of a simulation, in order, and the room that was taken for them.
#[derive(Drop)]
pub struct Journal {
    entries: Vec<Entry>,
    room: u64,
}

impl Model for Journal {
    ghost use Rattle.std.specs.Prelude.{◌≡◌, ◌≤◌, length, map};
    ghost use Rattle.std.specs.Vec.{vec_capacity};
    ghost use Rattle.tm_plan_journal.specs.Journaled.{Journaled};

    ghost Value = { Journaled };

    ghost use Rattle.tm_plan_journal.specs.Entries.{event_of};

    ghost view = { λ j. record { events = map event_of j.entries.items; room = j.room } };

    ghost invariant = { λ j. (length j.entries.items ≤ j.room) × (vec_capacity j.entries ≡ j.room) };
}

impl Journal {
    /// An empty journal with room for so many events.
    pub fn start(alloc: Global, room: u64) -> Result<Journal, NoMemory>
        ensures { IfOk result (λ j. j ≡ record { events = []; room = room }) }
    {
        match Vec::with_capacity(alloc, room as usize) {
            Ok(entries) => Ok(Journal { entries, room }),
            Err(_) => Err(NoMemory),
        }
    }

    /// Appends an event. There has to be room for it.
    pub fn put(&mut self, event: Event)
        requires { length self.old.events < self.old.room }
        ensures { self.new
            ≡ record { events = self.old.events ++ event ∷ []; room = self.old.room } }
    {
        self.entries.push_reserved(entry_of(event));
    }

    /// How many events there are.
    pub fn len(&self) -> u64
        ensures { result ≡ length self.now.events }
    {
        self.entries.len() as u64
    }

    /// The event at a place, counted from 0.
    pub fn at(&self, place: u64) -> Event
        requires { place < length self.now.events }
        ensures { result ≡ slice_index_or self.now.events place result }
    {
        event_of(self.entries[place as usize])
    }
}

fn entry_of(event: Event) -> Entry
    ensures { event_in result ≡ event }
{
    let plain = Entry {
        pc: event.pc,
        addr: 0,
        value: 0,
        word: event.word,
        hart: event.hart,
        kind: Kind::Quiet,
        width: 0,
    };
    match event.access {
        Access::Quiet => plain,
        Access::Read { addr, width, value } => Entry {
            addr,
            value,
            kind: Kind::Read,
            width,
            ..plain
        },
        Access::Write { addr, width, value } => Entry {
            addr,
            value,
            kind: Kind::Write,
            width,
            ..plain
        },
    }
}

fn event_of(entry: Entry) -> Event
    ensures { result ≡ event_in entry }
{
    let access = match entry.kind {
        Kind::Quiet => Access::Quiet,
        Kind::Read => Access::Read {
            addr: entry.addr,
            width: entry.width,
            value: entry.value,
        },
        Kind::Write => Access::Write {
            addr: entry.addr,
            width: entry.width,
            value: entry.value,
        },
    };
    Event {
        hart: entry.hart,
        pc: entry.pc,
        word: entry.word,
        access,
    }
}
