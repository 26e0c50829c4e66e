// The add of the A extension on dwords (RISC-V unprivileged specification, A 2.1), with aq and rl zero.
ghost use Rattle.std.specs.Prelude.{◌≡◌, ◌<◌, Some};
ghost use Rattle.tm_table.specs.Row.{put};
ghost use Rattle.tm_table.specs.State.{hart_of};
ghost use Rattle.tm_table.specs.Adds.{FitsAdd, add_of, add_word, hart_after, sum_after};

use crate::state::Cpu;

/// AMOADD.D: `rd` gets the dword at the address in `rs1`, which grows by `rs2`, in one step.
#[derive(Clone, Copy, Debug, PartialEq, Eq)]
pub struct Add {
    pub rd: u8,
    pub rs1: u8,
    pub rs2: u8,
}

/// The add of a word: none exactly where its opcode isn't 0x2F, its funct3 isn't 3 or bits 31 to 25 aren't zero.
#[tactic(auto, unfolding(crate::specs::Adds::add_of))]
pub fn decode_add(word: u32) -> Option<Add>
    ensures { result ≡ add_of word }
{
    if word % 128 != 0x2F {
        return None;
    }
    if (word >> 12) % 8 != 3 {
        return None;
    }
    if word >> 25 != 0 {
        return None;
    }
    Some(Add {
        rd: ((word >> 7) % 32) as u8,
        rs1: ((word >> 15) % 32) as u8,
        rs2: ((word >> 20) % 32) as u8,
    })
}

/// The word of an add, which decodes to it.
pub fn encode_add(a: Add) -> u32
    requires { FitsAdd a }
    ensures word { result ≡ add_word a }
    ensures back { add_of result ≡ Some a }
{
    joined(a)
}

// The fields of an add in their places.
#[tactic(auto, unfolding(crate::specs::Adds::add_word))]
fn joined(a: Add) -> u32
    requires { FitsAdd a }
    ensures { result ≡ add_word a }
{
    0x302F + (u32::from(a.rd) << 7) + (u32::from(a.rs1) << 15) + (u32::from(a.rs2) << 20)
}

/// Makes the add's step, where memory holds `old`, and answers what memory holds after it.
pub fn exec_add(cpu: &mut Cpu, a: Add, old: u64) -> u64
    requires { FitsAdd a }
    ensures value { result ≡ sum_after (hart_of cpu.old) a old }
    ensures state { hart_of cpu.new ≡ hart_after (hart_of cpu.old) a old }
{
    let sum = cpu.x[a.rs2 as usize].wrapping_add(old);
    give(cpu, a.rd, old);
    cpu.pc = cpu.pc.wrapping_add(4);
    sum
}

// A value into rd, unless that is x0.
#[tactic(auto, unfolding(crate::specs::Row::put))]
fn give(cpu: &mut Cpu, rd: u8, value: u64)
    requires { rd < 32 }
    ensures pc { cpu.new.pc ≡ cpu.old.pc }
    ensures x { cpu.new.x ≡ put cpu.old.x rd value }
{
    if rd == 0 {
        return;
    }
    cpu.x[rd as usize] = value;
}
