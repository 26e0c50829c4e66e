// A hart's barrier, appended as its words.
ghost use Rattle.std.specs.Prelude.{◌≡◌, ◌+◌, ◌*◌, ◌<◌, ◌≤◌, [], ◌∷◌, length, OnOk, IfOk};
ghost use Rattle.tm_blocks_base.specs.Instrs.{fence, go_to};
ghost use Rattle.tm_base.specs.Lists.{count_from};
ghost use Rattle.tm_asm.specs.Sheet.{puts};
ghost use Rattle.tm_barrier.specs.Words.{prepare, signal, wait, turn, waits, meet, barrier};
ghost use Rattle.tm_barrier.specs.Laws.{MeetRuns, FenceRuns, ReturnRuns};

use tm_asm::Code;
use tm_base::NoMemory;
use tm_blocks_code::{addi, bltu_back, fence, go_to, ld, put_all, sd, slli};

/// Places of a barrier's words, counted in words from the code's first: `arrive` is the barrier's first word, to which
/// a hart comes, and `exit` is the word at the exit mark.
#[derive(Clone, Copy, Debug, PartialEq, Eq)]
pub struct BarrierMarks {
    pub arrive: u64,
    pub exit: u64,
}

/// Hart `h`'s barrier among up to 16 harts, as a subroutine that is entered by JAL with link x1, and with the address
/// of the hart's private area in x31. The count of exits is kept in the dword 256 bytes into that area. It changes x2
/// to x4 alone. Without memory a part may have been appended.
pub fn put_barrier(code: &mut Code, h: u32, harts: u32) -> Result<BarrierMarks, NoMemory>
    requires mine { h < harts }
    requires few { harts ≤ 16 }
    ensures words { OnOk result (code.new ≡ puts code.old (barrier h harts)) }
    ensures arrive { IfOk result (λ marks. marks.arrive ≡ length code.old.items) }
    ensures exit { IfOk result (λ marks. marks.exit ≡ length code.old.items + length (meet h harts) + 1) }
    ensures short { OnOk result (length (barrier h harts) ≤ 9 + 2 * harts) }
    ensures runs { OnOk result (MeetRuns h harts) }
    ensures fence { OnOk result FenceRuns }
    ensures back { OnOk result ReturnRuns }
{
    let arrive = code.len();
    put_meet(code, h, harts)?;
    put_fence(code)?;
    let exit = code.len();
    put_return(code)?;
    Ok(BarrierMarks { arrive, exit })
}

// Up to the last flag.
fn put_meet(code: &mut Code, h: u32, harts: u32) -> Result<(), NoMemory>
    requires mine { h < harts }
    requires few { harts ≤ 16 }
    ensures { OnOk result (code.new ≡ puts code.old (meet h harts)) }
{
    put_prepare(code)?;
    put_signal(code, h)?;
    put_waits(code, h, harts)
}

#[tactic(auto, unfolding(crate::specs::Words::prepare))]
fn put_prepare(code: &mut Code) -> Result<(), NoMemory>
    ensures { OnOk result (code.new ≡ puts code.old prepare) }
{
    put_all(
        code,
        &[
            ld(2, 256, 31),
            addi(2, 2, 1),
            sd(2, 256, 31),
            addi(3, 0, 515),
            slli(3, 3, 22),
            fence(),
        ],
    )
}

fn put_signal(code: &mut Code, h: u32) -> Result<(), NoMemory>
    requires { h < 16 }
    ensures { OnOk result (code.new ≡ puts code.old (signal h)) }
{
    put_all(code, &[sd(2, 128 * h as u16, 3)])
}

// The flags of all harts but one.
fn put_waits(code: &mut Code, h: u32, harts: u32) -> Result<(), NoMemory>
    requires { harts ≤ 16 }
    ensures { OnOk result (code.new ≡ puts code.old (waits h (count_from 0 harts))) }
{
    for g in 0..harts {
        put_turn(code, h, g)?;
    }
    Ok(())
}

// One flag, if it isn't the hart's own.
fn put_turn(code: &mut Code, h: u32, g: u32) -> Result<(), NoMemory>
    requires { g < 16 }
    ensures { OnOk result (code.new ≡ puts code.old (turn h g)) }
{
    if g == h {
        return Ok(());
    }
    put_wait(code, g)
}

fn put_wait(code: &mut Code, g: u32) -> Result<(), NoMemory>
    requires { g < 16 }
    ensures { OnOk result (code.new ≡ puts code.old (wait g)) }
{
    put_all(code, &[ld(4, 128 * g as u16, 3), bltu_back(4, 2, 4)])
}

fn put_fence(code: &mut Code) -> Result<(), NoMemory>
    ensures { OnOk result (code.new ≡ puts code.old (fence ∷ [])) }
{
    put_all(code, &[fence()])
}

fn put_return(code: &mut Code) -> Result<(), NoMemory>
    ensures { OnOk result (code.new ≡ puts code.old (go_to 1 ∷ [])) }
{
    put_all(code, &[go_to(1)])
}
