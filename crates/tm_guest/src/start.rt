// The first state of a guest.
ghost use Rattle.std.specs.Prelude.{◌≡◌, ◌≤◌, ◌*◌, [], length, IfOk};
ghost use Rattle.tm_base.specs.declared.limits.TheConstants.{TABLES_BYTES, TEXT_WORDS};
ghost use Rattle.tm_table.specs.State.{hart_of};
ghost use Rattle.tm_plan_cases.specs.Shaped.{IsProgram};
ghost use Rattle.tm_world.specs.Run.{first_state};
ghost use Rattle.tm_world.specs.Replay.{opening};
ghost use Rattle.tm_guest.specs.Memory.{IsGuestRegion};
ghost use Rattle.tm_guest.specs.Start.{HasText, HasTables, IsOpened, AreOpened};
ghost use Rattle.tm_guest.specs.Fields.{IsMemory};

use crate::hart::HartState;
use std::alloc::Global;
use tm_base::{GUEST_ADDRESS, GUEST_BYTES, NoMemory};
use tm_plan_cases::Program;
use tm_plan_map::{TABLES_ADDRESS, TEXT_ADDRESS};
use tm_ram::Ram;
use tm_table::Cpu;

/// The harts before their first steps.
pub fn opened(alloc: Global, harts: u32) -> Result<Vec<HartState>, NoMemory>
    ensures { IfOk result (λ v. AreOpened harts v.items) }
{
    let mut states = match Vec::with_capacity(alloc, harts as usize) {
        Ok(states) => states,
        Err(_) => return Err(NoMemory),
    };
    for h in 0..harts {
        match states.push(opened_at(h)) {
            Ok(()) => {}
            Err(_) => return Err(NoMemory),
        }
    }
    Ok(states)
}

/// A hart before its first step.
fn opened_at(h: u32) -> HartState
    ensures { IsOpened h result }
{
    HartState {
        cpu: first_cpu(h),
        phase: 0,
        signalled: false,
    }
}

/// The registers of hart `h` before its first step: zero but x10, which is its number.
#[tactic(auto, unfolding(tm_world::specs::Replay::opening, tm_plan_map::specs::Map::text_base))]
pub fn first_cpu(h: u32) -> Cpu
    ensures { hart_of result ≡ first_state (opening h) }
{
    let mut x = [0; 32];
    x[10] = u64::from(h);
    Cpu::new(TEXT_ADDRESS, x)
}

/// The memory before the first step: the text's words, the tables' bytes, and 0 elsewhere.
pub fn image(alloc: Global, program: &Program) -> Result<Ram, NoMemory>
    requires { IsProgram program.now }
    ensures { IfOk result (λ r. IsMemory program.now [] r) }
{
    let mut ram = Ram::new(alloc, GUEST_ADDRESS, GUEST_BYTES)?;
    put_text(&mut ram, program.text.as_slice());
    put_tables(&mut ram, program.tables.as_slice());
    Ok(ram)
}

// Puts the words of the text at its begin.
fn put_text(ram: &mut Ram, text: &[u32])
    requires region { IsGuestRegion ram.old }
    requires few { length text.now ≤ TEXT_WORDS }
    ensures region { IsGuestRegion ram.new }
    ensures text { HasText text.now (length text.now) ram.old ram.new }
{
    for (i, word) in text.iter().enumerate() {
        ram.store(TEXT_ADDRESS + 4 * i as u64, 4, u64::from(*word));
    }
}

// Puts the bytes of the tables at their begin.
fn put_tables(ram: &mut Ram, tables: &[u8])
    requires region { IsGuestRegion ram.old }
    requires few { length tables.now ≤ TABLES_BYTES }
    ensures region { IsGuestRegion ram.new }
    ensures tables { HasTables tables.now (length tables.now) ram.old ram.new }
{
    for (i, byte) in tables.iter().enumerate() {
        ram.store(TABLES_ADDRESS + i as u64, 1, u64::from(*byte));
    }
}
