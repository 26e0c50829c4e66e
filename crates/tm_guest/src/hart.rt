// One hart of a guest: its registers, and where it stands at the barrier.
ghost use Rattle.std.specs.Prelude.{◌≡◌, ◌+◌, ◌<◌, ◌^◌, ℕ};
ghost use Rattle.tm_table.specs.State.{hart_of};
ghost use Rattle.tm_table.specs.Words.{Fits};
ghost use Rattle.tm_table.specs.Row.{row};
ghost use Rattle.tm_world.specs.Run.{HasShape};
ghost use Rattle.tm_world.specs.Kinds.{IsPossible, writes_flag as writes_flag_of};
ghost use Rattle.tm_changes.specs.Made.{change_told};
ghost use Rattle.tm_guest.specs.Memory.{IsGuestRegion, IsWritten};
ghost use Rattle.tm_guest.specs.Making.{IsMade, FitsOp};
ghost use Rattle.tm_guest.specs.Waiting.{phase_after, signalled_after};

use crate::act::act;
use crate::decoded::Decoded;
use tm_changes::Change;
use tm_plan_cases::Event;
use tm_plan_map::flag_addr;
use tm_ram::Ram;
use tm_table::{Access, Cpu};

/// A hart. `phase` counts its steps at its exit mark, and `signalled` says whether it has written its flag since the
/// last of them.
#[derive(Clone, Copy)]
pub struct HartState {
    pub cpu: Cpu,
    pub phase: u64,
    pub signalled: bool,
}

impl HartState {
    /// Makes the step of an instruction at hart `h`, whose exit mark is `exit`, with the change that is made to it.
    pub fn step(
        &mut self,
        ram: &mut Ram,
        at: Decoded,
        h: u32,
        exit: u64,
        change: Option<Change>,
    ) -> Event
        requires fits { Fits at.instr }
        requires possible { (bytes : ℕ) → IsPossible (row (hart_of self.old.cpu) at.instr bytes).1 }
        requires suits { FitsOp (change_told change) at.instr.op }
        requires region { IsGuestRegion ram.old }
        requires few { h < 16 }
        requires room { self.old.phase + 1 < 2 ^ 64 }
        ensures hart { result.hart ≡ h }
        ensures pc { result.pc ≡ self.old.cpu.pc }
        ensures word { result.word ≡ at.word }
        ensures made { IsMade (change_told change) (hart_of self.old.cpu) at.instr ram.old result.access
            (hart_of self.new.cpu) }
        ensures shape { HasShape result.access }
        ensures memory { IsWritten ram.old result.access ram.new }
        ensures phase { self.new.phase ≡ phase_after exit result.pc self.old.phase }
        ensures signalled { self.new.signalled ≡ signalled_after exit h result self.old.signalled }
    {
        let event = act(&mut self.cpu, ram, at, h, change);
        self.note(event, h, exit);
        event
    }

    /// Keeps what an event says of where the hart stands at the barrier.
    fn note(&mut self, event: Event, h: u32, exit: u64)
        requires few { h < 16 }
        requires room { self.old.phase + 1 < 2 ^ 64 }
        ensures cpu { self.new.cpu ≡ self.old.cpu }
        ensures phase { self.new.phase ≡ phase_after exit event.pc self.old.phase }
        ensures signalled { self.new.signalled ≡ signalled_after exit h event self.old.signalled }
    {
        if event.pc == exit {
            self.phase += 1;
            self.signalled = false;
        } else if writes_flag(h, event.access) {
            self.signalled = true;
        }
    }
}

/// Whether an access writes a byte of hart `h`'s flag.
#[tactic(auto, unfolding(tm_plan_map::specs::Map::flag_at))]
fn writes_flag(h: u32, access: Access) -> bool
    requires { h < 16 }
    ensures { result ≡ writes_flag_of h access }
{
    match access {
        Access::Write { addr, width, .. } => {
            let flag = flag_addr(h);
            addr < flag + 8 && (flag < addr || flag - addr < u64::from(width))
        }
        Access::Quiet | Access::Read { .. } => false,
    }
}
