// Mills over an image: harts that threads drive, and turns one by one.
ghost use Rattle.std.specs.Prelude.{IfOk};
ghost use Rattle.tm_world.specs.Sound.{Sound};
ghost use Rattle.tm_harts.specs.Mills.{AreAllOf};

use crate::demands::{ALL_PASSED, NONE_BEFORE, NONE_GAVE_UP, all_passed, none_before};
use crate::gate::HoldingGate;
use std::alloc::Global;
use std::sync::Wait;
use std::thread::Threads;
use tm_base::NoMemory;
use tm_guest::{Guest, RoundEnd, Turn};
use tm_harts::{Mill, Seat, run_threads};
use tm_memory::laws::scripts;
use tm_plan_cases::Program;
use tm_plan_journal::Journal;
use tm_plan_script::Faults;

/// The most events of a journal here.
const EVENTS: u64 = 4_000_000;

/// A mill over a program, and all its seats.
fn mill_of(alloc: Global, program: &Program) -> Result<(Mill<'_>, Vec<Seat<'_>>), NoMemory>
    requires { Sound program.now }
    ensures { IfOk result (λ r. AreAllOf r.0 r.1.items) }
{
    // no hart of it gets stuck
    scripts(program);
    let guest = Guest::start(alloc, program, Faults::nothing(alloc), EVENTS)?;
    Mill::start(alloc, guest)
}

/// A turn of the seat at a place, if there is one.
fn turn_at<'a, R: Wait>(
    rt: &R,
    mill: &Mill<'a>,
    seats: &mut Vec<Seat<'a>>,
    place: usize,
) -> Option<Turn>
    requires { AreAllOf mill.now seats.old.items }
    ensures { AreAllOf mill.now seats.new.items }
{
    if place >= seats.len() {
        return None;
    }
    mill.turn(rt, &mut seats[place])
}

/// How many events the seat at a place is told, if there is one.
fn told_at<'a>(mill: &Mill<'a>, seats: &mut Vec<Seat<'a>>, place: usize) -> Option<u64>
    requires { AreAllOf mill.now seats.old.items }
    ensures { AreAllOf mill.now seats.new.items }
{
    if place >= seats.len() {
        return None;
    }
    Some(mill.progress(&mut seats[place]))
}

/// Takes turns of the seat at a place until one of them makes no event. How many made one.
fn turns_at<'a, R: Wait>(rt: &R, mill: &Mill<'a>, seats: &mut Vec<Seat<'a>>, place: usize) -> u64
    requires { AreAllOf mill.now seats.old.items }
    ensures { AreAllOf mill.now seats.new.items }
{
    for steps in 0..EVENTS {
        match turn_at(rt, mill, seats, place) {
            Some(Turn::Stepped { .. }) => {}
            _ => return steps,
        }
    }
    EVENTS
}

/// Whether a turn answered the event at a place of a journal, and this place.
fn is_event_at(turn: Option<Turn>, journal: &Journal, place: u64) -> bool {
    if place >= journal.len() {
        return false;
    }
    let event = journal.at(place);
    turn == Some(Turn::Stepped { place, event })
}

/// What `driven` answers.
pub const DRIVEN: [&str; 5] = [
    NONE_GAVE_UP,
    ALL_PASSED,
    NONE_BEFORE,
    "all harts are at halt",
    "nothing is left to round order",
];

/// Harts that threads drive through the gate: they come to halt, and each passes the gate before each of its events.
pub fn driven<R: Threads + Wait + Sync>(
    rt: &R,
    alloc: Global,
    program: &Program,
) -> Result<[bool; 5], NoMemory>
    requires { Sound program.now }
{
    let (mill, mut seats) = mill_of(alloc, program)?;
    let gate = HoldingGate::new();
    run_threads(rt, &mill, &mut seats, &gate);
    let mut guest = mill.close(seats);
    let passed = all_passed(&gate, guest.harts(), guest.journal());
    let behind = none_before(guest.journal());
    let halted = guest.all_halted();
    let events = guest.journal().len();
    let _ = guest.run_round();
    Ok([
        !gate.gave_up(),
        passed,
        behind,
        halted,
        guest.journal().len() == events,
    ])
}

/// What `alone` answers.
pub const ALONE: [&str; 4] = [
    "it makes events",
    "then each further turn answers nothing",
    "the journal has its events alone",
    "round order brings all harts to halt",
];

/// A hart that takes turns alone comes to where it waits for another one, and then makes no event. What is left is
/// finished in round order.
pub fn alone<R: Wait>(rt: &R, alloc: Global, program: &Program) -> Result<[bool; 4], NoMemory>
    requires { Sound program.now }
{
    let (mill, mut seats) = mill_of(alloc, program)?;
    let steps = turns_at(rt, &mill, &mut seats, 0);
    let mut waits = true;
    for _ in 0..1000 {
        waits = turn_at(rt, &mill, &mut seats, 0).is_none() && waits;
    }
    let mut guest = mill.close(seats);
    let events = guest.journal().len();
    let end = guest.run_round();
    Ok([steps > 0, waits, events == steps, end == RoundEnd::Done])
}

/// What `in_turn` answers.
pub const IN_TURN: [&str; 4] = [
    "hart 0 makes the event at place 0",
    "hart 1 makes the event at place 1",
    "the seat of hart 0 is told of 2 events",
    "the journal has 2 events",
];

/// Two harts that take a turn each make the first two events.
pub fn in_turn<R: Wait>(rt: &R, alloc: Global, program: &Program) -> Result<[bool; 4], NoMemory>
    requires { Sound program.now }
{
    let (mill, mut seats) = mill_of(alloc, program)?;
    let first = turn_at(rt, &mill, &mut seats, 0);
    let second = turn_at(rt, &mill, &mut seats, 1);
    let told = told_at(&mill, &mut seats, 0);
    let guest = mill.close(seats);
    let journal = guest.journal();
    Ok([
        is_event_at(first, journal, 0),
        is_event_at(second, journal, 1),
        told == Some(2),
        journal.len() == 2,
    ])
}
