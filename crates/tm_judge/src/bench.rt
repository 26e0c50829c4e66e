// The harts of a recorded run.
ghost use Rattle.std.specs.Prelude.{◌≡◌, ◌+◌, ◌<◌, ◌^◌, ℕ, length, slice_index_or, IfOk};
ghost use Rattle.tm_base.specs.declared.limits.TheConstants.{HART_ROOM};
ghost use Rattle.tm_table.specs.State.{hart_of};
ghost use Rattle.tm_world.specs.Run.{first_state};
ghost use Rattle.tm_world.specs.Kinds.{writes_flag as writes_flag_of};
ghost use Rattle.tm_guest.specs.Memory.{WritesIn, IsWritten};
ghost use Rattle.tm_world.specs.Replay.{opening};
ghost use Rattle.tm_judge.specs.Bench.{IsOpened, AreOpened, IsNoted, AreNoted};

use std::alloc::Global;
use tm_base::NoMemory;
use tm_plan_cases::Event;
use tm_plan_map::{TEXT_ADDRESS, flag_addr};
use tm_ram::Ram;
use tm_table::{Access, Cpu};

/// A hart. `phase` counts its steps at its exit mark, and `signals` its writes of its flag.
#[derive(Clone, Copy)]
pub struct Seat {
    pub cpu: Cpu,
    pub phase: u64,
    pub signals: u64,
}

impl Seat {
    /// Keeps what an event of this hart, whose exit mark is `exit`, says of it.
    fn note(&mut self, next: Cpu, event: Event, exit: u64)
        requires few { event.hart < HART_ROOM }
        requires phase { self.old.phase + 1 < 2 ^ 64 }
        requires signals { self.old.signals + 1 < 2 ^ 64 }
        ensures { IsNoted exit event (hart_of next) self.old self.new }
    {
        self.cpu = next;
        if event.pc == exit {
            self.phase += 1;
        }
        if writes_flag(event.hart, event.access) {
            self.signals += 1;
        }
    }
}

/// Keeps what an event says of its hart.
pub fn note(seats: &mut Vec<Seat>, next: Cpu, event: Event, exit: u64)
    requires hart { event.hart < length seats.old.items }
    requires few { event.hart < HART_ROOM }
    requires room { (d : Seat) → ((slice_index_or seats.old.items event.hart d).phase + 1 < 2 ^ 64)
        × ((slice_index_or seats.old.items event.hart d).signals + 1 < 2 ^ 64) }
    ensures { AreNoted exit event (hart_of next) seats.old.items seats.new.items }
{
    let seat = &mut seats[event.hart as usize];
    seat.note(next, event, exit);
}

/// The harts before their first steps.
pub fn open_seats(alloc: Global, harts: u32) -> Result<Vec<Seat>, NoMemory>
    ensures { IfOk result (λ v. AreOpened harts v.items) }
{
    let mut seats = match Vec::with_capacity(alloc, harts as usize) {
        Ok(seats) => seats,
        Err(_) => return Err(NoMemory),
    };
    for h in 0..harts {
        match seats.push(open_seat(h)) {
            Ok(()) => {}
            Err(_) => return Err(NoMemory),
        }
    }
    Ok(seats)
}

/// A hart before its first step.
fn open_seat(h: u32) -> Seat
    ensures { IsOpened h result }
{
    Seat {
        cpu: first_cpu(h),
        phase: 0,
        signals: 0,
    }
}

#[tactic(auto, unfolding(tm_world::specs::Replay::opening, tm_plan_map::specs::Map::text_base))]
fn first_cpu(h: u32) -> Cpu
    ensures { hart_of result ≡ first_state (opening h) }
{
    let mut x = [0; 32];
    x[10] = u64::from(h);
    Cpu::new(TEXT_ADDRESS, x)
}

/// Writes what an access writes.
pub fn write_for(ram: &mut Ram, access: Access)
    requires { WritesIn ram.old access }
    ensures { IsWritten ram.old access ram.new }
{
    match access {
        Access::Write { addr, width, value } => ram.store(addr, width, value),
        Access::Quiet | Access::Read { .. } => {}
    }
}

/// Whether an access writes a byte of hart `h`'s flag.
#[tactic(auto, unfolding(tm_plan_map::specs::Map::flag_at))]
fn writes_flag(h: u32, access: Access) -> bool
    requires { h < HART_ROOM }
    ensures { result ≡ writes_flag_of h access }
{
    match access {
        Access::Write { addr, width, .. } => {
            let flag = flag_addr(h);
            addr < flag + 8 && (flag < addr || flag - addr < u64::from(width))
        }
        Access::Quiet | Access::Read { .. } => false,
    }
}
