// The store-buffered machine.
ghost use Rattle.std.specs.Prelude.{◌≡◌, ◌↔◌, ◌+◌, ◌<◌, ◌≤◌, ◌^◌, ℕ, [], length, reverse, Some, IsTrue, IfOk};
ghost use Rattle.tm_base.specs.declared.limits.TheConstants.{HART_ROOM, MOST_EVENTS};
ghost use Rattle.tm_plan_map.specs.Map.{guest_base, guest_end};
ghost use Rattle.tm_plan_cases.specs.Shaped.{IsProgram};
ghost use Rattle.tm_plan_map.specs.Slots.{instr_of};
ghost use Rattle.tm_table.specs.State.{hart_of};
ghost use Rattle.tm_table.specs.Words.{Fits};
ghost use Rattle.tm_table.specs.Row.{effect_by, row, IsWidth, HasWidth};
ghost use Rattle.tm_world.specs.Place.{harts, byte_of};
ghost use Rattle.tm_world.specs.Run.{Reads, HasShape, read_value};
ghost use Rattle.tm_world.specs.Kinds.{IsPossible};
ghost use Rattle.tm_world.specs.Course.{is_write};
ghost use Rattle.tm_guest.specs.Fields.{IsRow};
ghost use Rattle.tm_buffered.specs.Moments.{found, is_fence_instr, is_fence_op};
ghost use Rattle.tm_buffer.specs.Buffer.{LoadsIn, LoadsExactly, IsNumber, access_by, owed_by};
ghost use Rattle.tm_guest.specs.Memory.{IsWritten};
ghost use Rattle.tm_ram.specs.Region.{IsPlace};
ghost use Rattle.tm_buffer.specs.declared.hart.TheConstants.{BUFFER_WRITES};
ghost use Rattle.tm_buffer.specs.Seen.{IsHalted, IsRun, NeverStuck, buffer, fresh, moments, state, with_event};
ghost use Rattle.tm_buffer.specs.Turns.{Answers, DrainAnswers, IsFreeAt, DrainsOne, drained_all, fenced_by, spared};

use crate::drains::{DrainEntry, Drains};
use crate::hart::{BUFFER_WRITES, BufferedHart, Waiting, found_in_buffer, is_free, opened};
use crate::turn::Drained;
use std::alloc::Global;
use std::marker::Model;
use tm_base::NoMemory;
use tm_guest::Turn;
use tm_guest::decoded::{Decoded, decoded_text};
use tm_guest::start::image;
use tm_plan_cases::{Event, Program};
use tm_plan_journal::Journal;
use tm_plan_map::TEXT_ADDRESS;
use tm_ram::Ram;
use tm_table::{Access, Action, Cpu, Instr, Op, action_at, apply};

/// A machine that runs a program: one memory, and harts that step one at a time. The writes of each hart wait in a
/// buffer of its own, which has room for 8. Contracts see the program, the limit, the events so far and the writes that
/// drained, which give the moments.
#[derive(Drop)]
pub struct BufferGuest<'a> {
    program: &'a Program,
    decodes: Vec<Decoded>,
    harts: Vec<BufferedHart>,
    ram: Ram,
    journal: Journal,
    drains: Drains,
    limit: u64,
}

impl<'a> Model for BufferGuest<'a> {
    ghost use Rattle.tm_buffer.specs.Seen.{Seen};
    ghost use Rattle.tm_buffer.specs.Listed.{named_all};
    ghost use Rattle.tm_buffer.specs.Fields.{KeepsStored};

    ghost Value = { Seen };

    ghost view = { λ g. record {
      program = g.program.now;
      limit = g.limit;
      journal = g.journal.events;
      drains = named_all g.journal.events g.drains.entries;
    } };

    ghost invariant = { λ g.
        KeepsStored g.program.now g.limit g.decodes.items g.harts.items g.ram g.journal g.drains };
}

impl<'a> BufferGuest<'a> {
    /// A machine before its first step, with room for `limit` events. All memory is taken here: 40 bytes for each
    /// event, and 8 for the drain of its write.
    ///
    /// Asked: that no hart gets stuck on a buffered run of the program.
    pub fn start(
        alloc: Global,
        program: &'a Program,
        limit: u64,
    ) -> Result<BufferGuest<'a>, NoMemory>
        requires program { IsProgram program.now }
        requires some { 1 ≤ limit }
        requires few { limit ≤ MOST_EVENTS }
        requires unstuck { NeverStuck program.now }
        ensures { IfOk result (λ g. g ≡ fresh program.now limit) }
    {
        let decodes = decoded_text(alloc, program.text.as_slice())?;
        let harts = opened(alloc, program.cases.harts)?;
        let ram = image(alloc, program)?;
        let journal = Journal::start(alloc, limit)?;
        let drains = Drains::start(alloc, limit)?;
        Ok(BufferGuest {
            program,
            decodes,
            harts,
            ram,
            journal,
            drains,
            limit,
        })
    }

    /// Whether hart `h` is at its halt mark.
    pub fn halted(&self, h: u32) -> bool
        requires { h < harts self.now.program }
        ensures { IsTrue result ↔ IsHalted self.now h }
    {
        let halt = self.program.marks.halts.as_slice()[h as usize];
        self.cpu(h).pc == halt
    }

    /// The registers and the program counter of a hart.
    fn cpu(&self, h: u32) -> &Cpu
        requires { h < harts self.now.program }
        ensures { hart_of result.now ≡ state self.now h }
    {
        &self.harts[h as usize].cpu
    }

    /// The row at the program counter of a hart that isn't at its halt mark.
    fn row(&self, h: u32) -> Decoded
        requires below { h < harts self.now.program }
        requires off_halt { ¬ IsHalted self.now h }
        ensures { IsRow self.now.program (state self.now h) result }
    {
        let hart = &self.harts[h as usize];
        let place = (hart.cpu.pc - TEXT_ADDRESS) / 4;
        self.decodes[place as usize]
    }

    /// What a hart finds at a byte of the guest's memory.
    fn found(&self, h: u32, b: u64) -> u8
        requires below { h < harts self.now.program }
        requires from { guest_base ≤ b }
        requires to { b < guest_end }
        ensures { result ≡ found self.now.program h (moments self.now) b }
    {
        match found_in_buffer(self.harts[h as usize].buffer.as_slice(), b) {
            Some(byte) => byte,
            None => self.ram.load(b, 1) as u8,
        }
    }

    /// The number whose 2 bytes a hart finds from an address on.
    fn two(&self, h: u32, addr: u64) -> u64
        requires below { h < harts self.now.program }
        requires from { guest_base ≤ addr }
        requires to { addr + 2 ≤ guest_end }
        ensures small { result < 2 ^ 16 }
        ensures bytes { (i : ℕ) → i < 2
            → byte_of result i ≡ found self.now.program h (moments self.now) (addr + i) }
    {
        u64::from(self.found(h, addr)) + u64::from(self.found(h, addr + 1)) * 0x100
    }

    fn four(&self, h: u32, addr: u64) -> u64
        requires below { h < harts self.now.program }
        requires from { guest_base ≤ addr }
        requires to { addr + 4 ≤ guest_end }
        ensures small { result < 2 ^ 32 }
        ensures bytes { (i : ℕ) → i < 4
            → byte_of result i ≡ found self.now.program h (moments self.now) (addr + i) }
    {
        self.two(h, addr) + self.two(h, addr + 2) * 0x1_0000
    }

    fn eight(&self, h: u32, addr: u64) -> u64
        requires below { h < harts self.now.program }
        requires from { guest_base ≤ addr }
        requires to { addr + 8 ≤ guest_end }
        ensures { (i : ℕ) → i < 8
            → byte_of result i ≡ found self.now.program h (moments self.now) (addr + i) }
    {
        self.four(h, addr) + self.four(h, addr + 4) * 0x1_0000_0000
    }

    /// The number whose `width` bytes a hart finds from an address on.
    fn load(&self, h: u32, addr: u64, width: u8) -> u64
        requires below { h < harts self.now.program }
        requires wide { IsWidth width }
        requires from { guest_base ≤ addr }
        requires to { addr + width ≤ guest_end }
        ensures { IsNumber (found self.now.program h (moments self.now)) addr width result }
    {
        match width {
            1 => u64::from(self.found(h, addr)),
            2 => self.two(h, addr),
            4 => self.four(h, addr),
            _ => self.eight(h, addr),
        }
    }

    /// What an action of hart `h` reads.
    fn read_for(&self, h: u32, action: Action) -> u64
        requires below { h < harts self.now.program }
        requires place { LoadsIn (effect_by action) }
        ensures { LoadsExactly (found self.now.program h (moments self.now)) (effect_by action) result }
    {
        match action {
            Action::Load { addr, width, .. } => self.load(h, addr, width),
            Action::Give(_) | Action::Store { .. } | Action::Branch(_) | Action::Jump { .. } => 0,
        }
    }

    /// Makes the step of an instruction at hart `h`, but for what it writes.
    fn make(&self, h: u32, cpu: &mut Cpu, instr: Instr) -> Access
        requires below { h < harts self.now.program }
        requires fits { Fits instr }
        requires possible { (bytes : ℕ) → IsPossible (row (hart_of cpu.old) instr bytes).1 }
        ensures step { row (hart_of cpu.old) instr (read_value result) ≡ (hart_of cpu.new, result) }
        ensures shape { HasShape result }
        ensures reads { Reads (owed_by (found self.now.program h (moments self.now))) result }
    {
        let action = action_at(cpu, instr);
        let read = self.read_for(h, action);
        apply(cpu, action, instr, read)
    }

    /// How many harts the program has: one at least.
    pub fn harts(&self) -> u32
        ensures is { result ≡ harts self.now.program }
        ensures some { 1 ≤ result }
        ensures few { result ≤ HART_ROOM }
    {
        self.program.cases.harts
    }

    /// How many events there are so far. With the drains they are a buffered run of the program.
    pub fn events(&self) -> u64
        ensures count { result ≡ length self.now.journal }
        ensures run { IsRun self.now }
        ensures each { length self.now.drains ≤ length self.now.journal }
        ensures few { length self.now.journal ≤ MOST_EVENTS }
    {
        self.journal.len()
    }

    /// How many writes of hart `h` wait in its buffer.
    pub fn waiting(&self, h: u32) -> usize
        requires { h < harts self.now.program }
        ensures count { result ≡ length (buffer self.now h) }
        ensures few { result ≤ BUFFER_WRITES }
    {
        self.harts[h as usize].buffer.len()
    }

    /// Lets write `i` of hart `h`, counted from the newest, go to memory. No older one may have a byte in common with
    /// it.
    fn drain_at(&mut self, h: u32, i: usize)
        requires below { h < harts self.old.program }
        requires inside { i < length (buffer self.old h) }
        requires free { IsFreeAt (buffer self.old h) i }
        ensures one { DrainsOne self.old h i self.new }
        ensures shorter { length (buffer self.new h) + 1 ≡ length (buffer self.old h) }
        ensures run { IsRun self.new }
    {
        let after = self.journal.len() as u32;
        let waiting = self.harts[h as usize].take(i);
        write_back(&mut self.ram, waiting);
        self.drains.put(DrainEntry {
            after,
            write: waiting.write,
        });
    }

    /// Whether no older write of hart `h` has a byte in common with write `i`, counted from the newest.
    fn is_free(&self, h: u32, i: usize) -> bool
        requires below { h < harts self.now.program }
        requires inside { i < length (buffer self.now h) }
        ensures { IsTrue result ↔ IsFreeAt (buffer self.now h) i }
    {
        is_free(self.harts[h as usize].buffer.as_slice(), i)
    }

    /// Lets all writes of a hart go to memory, the oldest first, before a FENCE.
    fn fence(&mut self, h: u32, fence: bool)
        requires { h < harts self.old.program }
        ensures after { self.new ≡ fenced_by self.old h fence }
        ensures empty { IsTrue fence → buffer self.new h ≡ [] }
    {
        if fence {
            self.flush(h);
        }
    }

    /// Lets all writes of a hart go to memory, the oldest first.
    fn flush(&mut self, h: u32)
        requires { h < harts self.old.program }
        ensures after { self.new ≡ drained_all self.old h (reverse (buffer self.old h)) }
        ensures empty { buffer self.new h ≡ [] }
    {
        while self.waiting(h) > 0 {
            let last = self.waiting(h) - 1;
            self.drain_at(h, last);
        }
    }

    /// Makes room in the buffer of a hart for what it writes: where it is full, the oldest write goes to memory.
    fn spare(&mut self, h: u32, access: Access)
        requires { h < harts self.old.program }
        ensures after { self.new ≡ spared self.old h access }
        ensures room { IsTrue (is_write access) → length (buffer self.new h) < BUFFER_WRITES }
    {
        let room = BUFFER_WRITES;
        if is_write_access(access) && self.waiting(h) == room {
            self.drain_at(h, room - 1);
        }
    }

    /// Makes the step of a hart, whose registers and access are these.
    fn step(&mut self, h: u32, at: Decoded, cpu: Cpu, access: Access) -> Event
        requires below { h < harts self.old.program }
        requires off_halt { ¬ IsHalted self.old h }
        requires room { length self.old.journal < self.old.limit }
        requires row { IsRow self.old.program (state self.old h) at }
        requires step { row (state self.old h) at.instr (read_value access) ≡ (hart_of cpu, access) }
        requires shape { HasShape access }
        requires reads { Reads (owed_by (found self.old.program h (moments self.old))) access }
        requires fence { IsTrue (is_fence_instr (instr_of at.word)) → buffer self.old h ≡ [] }
        requires space { IsTrue (is_write access) → length (buffer self.old h) < BUFFER_WRITES }
        ensures hart { result.hart ≡ h }
        ensures word { result.word ≡ at.word }
        ensures access { result.access ≡ access }
        ensures after { self.new ≡ with_event self.old result }
        ensures run { IsRun self.new }
    {
        let place = self.journal.len() as u32;
        let hart = &mut self.harts[h as usize];
        let event = Event {
            hart: h,
            pc: hart.cpu.pc,
            word: at.word,
            access,
        };
        hart.queue(cpu, access, place);
        self.journal.put(event);
        event
    }

    /// Lets hart `h` make its next step, if it isn't at its halt mark and the journal isn't full. Before a FENCE its
    /// writes drain, the oldest first; before a store into a full buffer the oldest does.
    pub fn advance(&mut self, h: u32) -> Turn
        requires { h < harts self.old.program }
        ensures { Answers self.old h result self.new }
    {
        if self.halted(h) {
            return Turn::Halted;
        }
        let place = self.journal.len();
        if place == self.limit {
            return Turn::Full;
        }
        let at = self.row(h);
        let mut cpu = *self.cpu(h);
        self.fence(h, is_fence(at.instr.op));
        let access = self.make(h, &mut cpu, at.instr);
        self.spare(h, access);
        let event = self.step(h, at, cpu, access);
        Turn::Stepped { place, event }
    }

    /// Lets hart `h`'s write number `which`, counted from the oldest, go to memory, if it is there and no older one has
    /// a byte in common with it.
    pub fn drain(&mut self, h: u32, which: u32) -> Drained
        requires { h < harts self.old.program }
        ensures { DrainAnswers self.old h which result self.new }
    {
        let waiting = self.waiting(h);
        if which as usize >= waiting {
            return Drained::Nothing;
        }
        let i = waiting - 1 - which as usize;
        if !self.is_free(h, i) {
            return Drained::Nothing;
        }
        self.drain_at(h, i);
        Drained::Went
    }

    /// The events so far. With the drains they are a buffered run of the program.
    pub fn into_journal(self) -> Journal
        ensures events { result.events ≡ self.entry.journal }
        ensures run { IsRun self.entry }
        ensures few { length self.entry.journal ≤ self.entry.limit }
    {
        let BufferGuest {
            program: _,
            decodes: _,
            harts: _,
            ram: _,
            journal,
            drains: _,
            limit: _,
        } = self;
        journal
    }
}

/// Writes to memory what has waited.
fn write_back(ram: &mut Ram, waiting: Waiting)
    requires { IsPlace ram.old waiting.addr waiting.width }
    ensures { IsWritten ram.old (access_by waiting) ram.new }
{
    ram.store(waiting.addr, waiting.width, waiting.value);
}

/// Whether an op is a FENCE.
fn is_fence(op: Op) -> bool
    ensures { result ≡ is_fence_op op }
{
    matches!(op, Op::Fence)
}

/// Whether an access writes.
fn is_write_access(access: Access) -> bool
    ensures { result ≡ is_write access }
{
    matches!(access, Access::Write { .. })
}
