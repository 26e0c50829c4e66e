// The guest: one state, stepped hart by hart.
ghost use Rattle.std.specs.Prelude.{◌≡◌, ◌↔◌, ◌+◌, ◌<◌, ◌≤◌, ◌^◌, [], length, IsTrue, IfOk};
ghost use Rattle.tm_base.specs.Lists.{any};
ghost use Rattle.tm_base.specs.declared.limits.TheConstants.{MOST_EVENTS};
ghost use Rattle.tm_plan_cases.specs.declared.event.Event.{Event};
ghost use Rattle.tm_table.specs.State.{hart_of};
ghost use Rattle.tm_plan_cases.specs.Shaped.{IsProgram};
ghost use Rattle.tm_world.specs.Place.{harts, exit_of};
ghost use Rattle.tm_world.specs.Run.{own, phase};
ghost use Rattle.tm_world.specs.Kinds.{Plain};
ghost use Rattle.tm_world.specs.Course.{signals, this_phase};
ghost use Rattle.tm_world.specs.Script.{FaultedRun};
ghost use Rattle.tm_world.specs.Work.{NeverStuck};
ghost use Rattle.tm_world.specs.Whole.{Laid};
ghost use Rattle.tm_world.specs.Replay.{change_next};
ghost use Rattle.tm_plan_script.specs.Accepted.{AreAccepted};
ghost use Rattle.tm_changes.specs.Made.{change_told};
ghost use Rattle.tm_guest.specs.Guested.{IsHalted, fresh, run, state, steps, with_event};
ghost use Rattle.tm_guest.specs.Fields.{IsRow};
ghost use Rattle.tm_guest.specs.Turns.{Answers, IsNextEvent};
ghost use Rattle.tm_guest.specs.Waiting.{Waits};

use crate::act::next_access;
use crate::decoded::{Decoded, decoded_text};
use crate::hart::HartState;
use crate::idle::finds_less;
use crate::start::{image, opened};
use crate::turn::Turn;
use std::alloc::Global;
use std::marker::Model;
use tm_base::NoMemory;
use tm_changes::{Change, Changes};
use tm_plan_cases::{Event, Program};
use tm_plan_journal::Journal;
use tm_plan_map::TEXT_ADDRESS;
use tm_plan_script::Faults;
use tm_ram::Ram;
use tm_table::{Access, Cpu};

/// A machine that runs a program: one memory, and harts that step one at a time. Contracts see the program, the lines
/// of the script, the limit and the events so far, which give the state of each hart by being replayed.
#[derive(Drop)]
pub struct Guest<'a> {
    program: &'a Program,
    changes: Changes<'a>,
    decodes: Vec<Decoded>,
    harts: Vec<HartState>,
    ram: Ram,
    journal: Journal,
    limit: u64,
}

impl<'a> Model for Guest<'a> {
    ghost use Rattle.tm_guest.specs.Guested.{Guested};
    ghost use Rattle.tm_guest.specs.Fields.{KeepsReplay};

    ghost Value = { Guested };

    ghost view = { λ g. record {
      program = g.program.now;
      faults = g.changes.lines;
      limit = g.limit;
      journal = g.journal.events;
    } };

    ghost invariant = { λ g.
        KeepsReplay g.program.now g.changes g.limit g.decodes.items g.harts.items g.ram g.journal };
}

impl<'a> Guest<'a> {
    /// A guest before its first step, with room for `limit` events. All memory is taken here, 40 bytes for each event.
    ///
    /// Asked: that the marks are laid as the course has them, that the script's lines are accepted, and that no hart
    /// gets stuck: on each run of the program under the script each hart that isn't at its halt mark has a next step.
    /// Sound programs have all that, under each script whose lines are accepted.
    pub fn start(
        alloc: Global,
        program: &'a Program,
        faults: Faults,
        limit: u64,
    ) -> Result<Guest<'a>, NoMemory>
        requires program { IsProgram program.now }
        requires some { 1 ≤ limit }
        requires few { limit ≤ MOST_EVENTS }
        requires laid { Laid program.now }
        requires accepted { AreAccepted program.now.cases faults }
        requires unstuck { NeverStuck program.now faults }
        ensures { IfOk result (λ g. g ≡ fresh program.now faults limit) }
    {
        let decodes = decoded_text(alloc, program.text.as_slice())?;
        let harts = opened(alloc, program.cases.harts)?;
        let ram = image(alloc, program)?;
        let journal = Journal::start(alloc, limit)?;
        let changes = Changes::start(alloc, program, faults)?;
        Ok(Guest {
            program,
            changes,
            decodes,
            harts,
            ram,
            journal,
            limit,
        })
    }

    /// Whether hart `h` is at its halt mark.
    pub fn halted(&self, h: u32) -> bool
        requires { h < harts self.now.program }
        ensures { IsTrue result ↔ IsHalted self.now h }
    {
        let halt = self.program.marks.halts.as_slice()[h as usize];
        self.cpu(h).pc == halt
    }

    /// Lets hart `h` make its next step, if it isn't at its halt mark and the journal isn't full.
    pub fn advance(&mut self, h: u32) -> Turn
        requires { h < harts self.old.program }
        ensures { Answers self.old h result self.new }
    {
        if self.halted(h) {
            return Turn::Halted;
        }
        let place = self.journal.len();
        if place == self.limit {
            return Turn::Full;
        }
        let event = self.step(h);
        Turn::Stepped { place, event }
    }

    /// Whether hart `h` waits for another one: it isn't at its halt mark, and its next step would be an idle read.
    /// That is a read of another hart's flag, after the hart has written its own in its phase, that finds less than
    /// the phase's number and 1: the other hart isn't there yet, and the hart has to read again.
    pub fn waits(&self, h: u32) -> bool
        requires { h < harts self.now.program }
        ensures { IsTrue result ↔ Waits self.now h }
    {
        if self.halted(h) {
            return false;
        }
        if !self.has_signalled(h) {
            return false;
        }
        let harts = self.program.cases.harts;
        finds_less(self.next_access(h), h, harts, self.phase(h) + 1)
    }

    /// How many harts the program has: one at least.
    pub fn harts(&self) -> u32
        ensures is { result ≡ harts self.now.program }
        ensures some { 1 ≤ result }
    {
        self.program.cases.harts
    }

    /// The most events that the journal may have.
    pub fn limit(&self) -> u64
        ensures { result ≡ self.now.limit }
    {
        self.limit
    }

    /// The events so far. They are a run of the program that the script has changed, whose opening registers are zero
    /// but x10: a plain run, where the script has no lines.
    pub fn journal(&self) -> &Journal
        ensures events { result.now.events ≡ self.now.journal }
        ensures faulted { FaultedRun self.now.program self.now.faults (run self.now) }
        ensures plain { self.now.faults ≡ [] → Plain self.now.program (run self.now) }
        ensures few { length self.now.journal ≤ self.now.limit }
    {
        &self.journal
    }

    /// The same, where the guest is needed no more.
    pub fn into_journal(self) -> Journal
        ensures events { result.events ≡ self.entry.journal }
        ensures faulted { FaultedRun self.entry.program self.entry.faults (run self.entry) }
        ensures plain { self.entry.faults ≡ [] → Plain self.entry.program (run self.entry) }
        ensures few { length self.entry.journal ≤ self.entry.limit }
    {
        let Guest {
            program: _,
            changes: _,
            decodes: _,
            harts: _,
            ram: _,
            journal,
            limit: _,
        } = self;
        journal
    }

    /// The registers and the program counter of a hart.
    fn cpu(&self, h: u32) -> &Cpu
        requires { h < harts self.now.program }
        ensures { hart_of result.now ≡ state self.now h }
    {
        &self.harts[h as usize].cpu
    }

    /// How many steps a hart has made at its exit mark.
    fn phase(&self, h: u32) -> u64
        requires { h < harts self.now.program }
        ensures value { result ≡ phase (exit_of self.now.program h) (own h (steps self.now)) }
        ensures room { result + 1 < 2 ^ 64 }
    {
        self.harts[h as usize].phase
    }

    /// Whether a hart has written its flag in its phase.
    fn has_signalled(&self, h: u32) -> bool
        requires { h < harts self.now.program }
        ensures { result
            ≡ any (signals h) (this_phase self.now.program h (own h (steps self.now))) }
    {
        self.harts[h as usize].signalled
    }

    /// The row at the program counter of a hart that isn't at its halt mark.
    fn row(&self, h: u32) -> Decoded
        requires below { h < harts self.now.program }
        requires off_halt { ¬ IsHalted self.now h }
        ensures { IsRow self.now.program (state self.now h) result }
    {
        let hart = &self.harts[h as usize];
        let place = (hart.cpu.pc - TEXT_ADDRESS) / 4;
        self.decodes[place as usize]
    }

    /// What the script changes in the next step of a hart that isn't at its halt mark.
    fn change(&self, h: u32) -> Option<Change>
        requires below { h < harts self.now.program }
        requires off_halt { ¬ IsHalted self.now h }
        ensures { change_told result ≡ change_next self.now.program self.now.faults (steps self.now) h }
    {
        let hart = &self.harts[h as usize];
        self.changes.at(h, hart.phase, hart.cpu.pc)
    }

    /// What the next step of a hart that isn't at its halt mark would do in memory.
    fn next_access(&self, h: u32) -> Access
        requires below { h < harts self.now.program }
        requires off_halt { ¬ IsHalted self.now h }
        ensures { (e : Event) × IsNextEvent self.now h e × (e.access ≡ result) }
    {
        let at = self.row(h);
        let change = self.change(h);
        next_access(self.cpu(h), &self.ram, at.instr, change)
    }

    /// Makes the next step of a hart that isn't at its halt mark.
    fn step(&mut self, h: u32) -> Event
        requires below { h < harts self.old.program }
        requires off_halt { ¬ IsHalted self.old h }
        requires room { length self.old.journal < self.old.limit }
        ensures next { IsNextEvent self.old h result }
        ensures after { self.new ≡ with_event self.old result }
    {
        let at = self.row(h);
        let change = self.change(h);
        let exit = self.program.marks.exits.as_slice()[h as usize];
        let hart = &mut self.harts[h as usize];
        let event = hart.step(&mut self.ram, at, h, exit, change);
        self.journal.put(event);
        event
    }
}
