// What kind of instruction an op is, how many bytes it moves, and where.
ghost use Rattle.std.specs.Prelude.{◌≡◌, ◌≤◌};
ghost use Rattle.tm_plan_map.specs.Slots as slots;

use crate::addresses::window_base;
use tm_table::{Instr, Op};

/// The bytes that a load reads, 0 for every other op.
pub fn load_width(op: Op) -> u8
    ensures width { result ≡ slots.load_width op }
    ensures few { result ≤ 8 }
{
    match op {
        Op::Lb | Op::Lbu => 1,
        Op::Lh | Op::Lhu => 2,
        Op::Lw | Op::Lwu => 4,
        Op::Ld => 8,
        _ => 0,
    }
}

/// The bytes that a store writes, 0 for every other op.
pub fn store_width(op: Op) -> u8
    ensures width { result ≡ slots.store_width op }
    ensures few { result ≤ 8 }
{
    match op {
        Op::Sb => 1,
        Op::Sh => 2,
        Op::Sw => 4,
        Op::Sd => 8,
        _ => 0,
    }
}

/// Whether an op is a load or a store.
pub fn is_access(op: Op) -> bool
    ensures { result ≡ slots.is_access op }
{
    load_width(op) + store_width(op) > 0
}

/// Whether an op is a branch.
pub fn is_branch(op: Op) -> bool
    ensures { result ≡ slots.is_branch op }
{
    matches!(
        op,
        Op::Beq | Op::Bne | Op::Blt | Op::Bge | Op::Bltu | Op::Bgeu
    )
}

/// Whether an op is a branch or JAL.
pub fn is_jump(op: Op) -> bool
    ensures { result ≡ slots.is_jump op }
{
    matches!(
        op,
        Op::Jal | Op::Beq | Op::Bne | Op::Blt | Op::Bge | Op::Bltu | Op::Bgeu
    )
}

/// Whether an op has no place in a stream.
pub fn is_barred(op: Op) -> bool
    ensures { result ≡ slots.is_barred op }
{
    matches!(op, Op::Jalr | Op::Ecall | Op::Ebreak)
}

/// Whether an op is a product, a quotient or a remainder.
pub fn is_product(op: Op) -> bool
    ensures { result ≡ slots.is_product op }
{
    match op {
        Op::Mul | Op::Mulh | Op::Mulhsu | Op::Mulhu => true,
        Op::Div | Op::Divu | Op::Rem | Op::Remu => true,
        Op::Mulw | Op::Divw | Op::Divuw | Op::Remw | Op::Remuw => true,
        _ => false,
    }
}

/// The address of a load or store in a stream, by the base that its first register holds.
#[tactic(auto, unfolding(crate::specs::Slots::slot_addr))]
pub fn slot_addr(i: Instr) -> u64
    requires { slots.IsBase i.rs1 }
    ensures { result ≡ slots.slot_addr i }
{
    window_base(u32::from(i.rs1 - 28)).wrapping_add(i.imm.cast_unsigned())
}
