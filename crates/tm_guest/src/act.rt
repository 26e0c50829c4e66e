// One step of one hart.
ghost use Rattle.std.specs.Prelude.{◌≡◌, ◌<◌, ℕ, bit_xor};
ghost use Rattle.tm_table.specs.State.{Hart, hart_of};
ghost use Rattle.tm_table.specs.Words.{Fits};
ghost use Rattle.tm_table.specs.Row.{row, effect_by, HasWidth};
ghost use Rattle.tm_world.specs.Run.{HasShape};
ghost use Rattle.tm_world.specs.Kinds.{IsPossible};
ghost use Rattle.tm_world.specs.Faulted.{access_by};
ghost use Rattle.tm_changes.specs.Made.{change_in, change_told};
ghost use Rattle.tm_guest.specs.Memory.{IsGuestRegion, LoadsIn, LoadsExactly, WritesIn, IsWritten};
ghost use Rattle.tm_guest.specs.Making.{IsMade, FitsOp, IsStateBy, HasTurned, xored};

use crate::decoded::Decoded;
use tm_changes::Change;
use tm_plan_cases::Event;
use tm_plan_map::is_branch;
use tm_ram::Ram;
use tm_table::{Access, Action, Cpu, Instr, action_at, apply};

/// Makes the step of an instruction at a hart, with the change that is made to it.
pub fn act(cpu: &mut Cpu, ram: &mut Ram, at: Decoded, hart: u32, change: Option<Change>) -> Event
    requires fits { Fits at.instr }
    requires possible { (bytes : ℕ) → IsPossible (row (hart_of cpu.old) at.instr bytes).1 }
    requires suits { FitsOp (change_told change) at.instr.op }
    requires region { IsGuestRegion ram.old }
    ensures hart { result.hart ≡ hart }
    ensures pc { result.pc ≡ cpu.old.pc }
    ensures word { result.word ≡ at.word }
    ensures made { IsMade (change_told change) (hart_of cpu.old) at.instr ram.old result.access (hart_of cpu.new) }
    ensures shape { HasShape result.access }
    ensures memory { IsWritten ram.old result.access ram.new }
{
    let pc = cpu.pc;
    let access = make(cpu, ram, at.instr, change);
    write_for(ram, access);
    Event {
        hart,
        pc,
        word: at.word,
        access,
    }
}

/// What the step of an instruction at a hart would do in memory, with the change that would be made to it.
pub fn next_access(cpu: &Cpu, ram: &Ram, instr: Instr, change: Option<Change>) -> Access
    requires fits { Fits instr }
    requires possible { (bytes : ℕ) → IsPossible (row (hart_of cpu.now) instr bytes).1 }
    requires suits { FitsOp (change_told change) instr.op }
    requires region { IsGuestRegion ram.now }
    ensures made { (after : Hart) × IsMade (change_told change) (hart_of cpu.now) instr ram.now result after }
    ensures shape { HasShape result }
{
    let mut copy = *cpu;
    make(&mut copy, ram, instr, change)
}

/// Makes the step of an instruction at a hart, with its change, but for what it writes to memory.
fn make(cpu: &mut Cpu, ram: &Ram, instr: Instr, change: Option<Change>) -> Access
    requires fits { Fits instr }
    requires possible { (bytes : ℕ) → IsPossible (row (hart_of cpu.old) instr bytes).1 }
    requires suits { FitsOp (change_told change) instr.op }
    requires region { IsGuestRegion ram.now }
    ensures made { IsMade (change_told change) (hart_of cpu.old) instr ram.now result (hart_of cpu.new) }
    ensures shape { HasShape result }
{
    let from = cpu.pc;
    let action = action_at(cpu, instr);
    let read = with_loaded(read_for(ram, action), change);
    let clean = apply(cpu, action, instr, read);
    finish(cpu, from, instr, clean, change)
}

// What memory gave, with the change that is made to it.
fn with_loaded(read: u64, change: Option<Change>) -> u64
    ensures { result ≡ bit_xor read (change_told change).loaded }
{
    match change {
        None => read,
        Some(change) => read ^ change.loaded,
    }
}

// Makes the rest of a change, to what a step from `from` has left of a hart and to what it does in memory.
fn finish(cpu: &mut Cpu, from: u64, instr: Instr, clean: Access, change: Option<Change>) -> Access
    requires { Fits instr }
    ensures state { IsStateBy (change_told change) instr from (hart_of cpu.old) (hart_of cpu.new) }
    ensures access { result ≡ access_by (change_told change) clean }
{
    match change {
        None => clean,
        Some(change) => {
            change_state(cpu, from, instr, change);
            changed(clean, change)
        }
    }
}

// Changes what a step from `from` has left of a hart: its result, and which way its branch went.
#[tactic(auto, unfolding(tm_table::specs::Words::Fits))]
fn change_state(cpu: &mut Cpu, from: u64, instr: Instr, change: Change)
    requires { Fits instr }
    ensures { IsStateBy (change_in change) instr from (hart_of cpu.old) (hart_of cpu.new) }
{
    if change.turns && is_branch(instr.op) {
        turn(cpu, from, instr);
    }
    xor_result(cpu, instr.rd, change.result);
}

// Lets a branch go the other way.
fn turn(cpu: &mut Cpu, from: u64, instr: Instr)
    requires { Fits instr }
    ensures { HasTurned instr from (hart_of cpu.old) (hart_of cpu.new) }
{
    let next = from.wrapping_add(4);
    if cpu.pc == next {
        cpu.pc = from.wrapping_add(instr.imm.cast_unsigned());
    } else {
        cpu.pc = next;
    }
}

// Xors a number to a register; x0 stays.
#[tactic(auto, unfolding(tm_table::specs::Row::put))]
fn xor_result(cpu: &mut Cpu, rd: u8, number: u64)
    requires { rd < 32 }
    ensures { hart_of cpu.new ≡ xored (hart_of cpu.old) rd number }
{
    if rd != 0 {
        cpu.x[rd as usize] ^= number;
    }
}

// What a step does in memory, where its store is xored, or dropped.
fn changed(clean: Access, change: Change) -> Access
    ensures { result ≡ access_by (change_in change) clean }
{
    match clean {
        Access::Write { .. } if change.drops => Access::Quiet,
        Access::Write { addr, width, value } => Access::Write {
            addr,
            width,
            value: value ^ change.stored,
        },
        Access::Quiet | Access::Read { .. } => clean,
    }
}

/// What an action reads.
fn read_for(ram: &Ram, action: Action) -> u64
    requires { LoadsIn ram.now (effect_by action) }
    ensures { LoadsExactly ram.now (effect_by action) result }
{
    match action {
        Action::Load { addr, width, .. } => ram.load(addr, width),
        Action::Give(_) | Action::Store { .. } | Action::Branch(_) | Action::Jump { .. } => 0,
    }
}

/// Writes what an access writes.
fn write_for(ram: &mut Ram, access: Access)
    requires { WritesIn ram.old access }
    ensures { IsWritten ram.old access ram.new }
{
    match access {
        Access::Write { addr, width, value } => ram.store(addr, width, value),
        Access::Quiet | Access::Read { .. } => {}
    }
}
