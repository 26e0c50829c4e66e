ghost use Rattle.std.specs.Prelude.{◌≡◌, ◌↔◌, ◌+◌, ◌<◌, ◌%◌, ◌^◌, ℕ, IsSome, IfSome, IsTrue, unwrap_or};
ghost use Rattle.tm_table.specs.State.{hart_of};
ghost use Rattle.tm_table.specs.Words.{low, Fits};
ghost use Rattle.tm_table.specs.Row.{put as put_in, Loads, Stores, Jumps, word64, effect_by, effect, effect_at, after};
ghost use Rattle.tm_table.specs.Row.{row, read_in, loads as loads_of, read_at, is_load, IsGiven, IsWidth, HasWidth};

use crate::instr::{Instr, Op};
use crate::numbers::{
    flag, high_mixed, high_signed, high_unsigned, less, loaded, low_bytes, quotient_signed,
    quotient_unsigned, remainder_signed, remainder_unsigned, shift_down, shift_word_down, word,
};
use crate::state::{Access, Cpu};

/// What an instruction does with its operands.
#[derive(Clone, Copy)]
pub enum Action {
    /// It gives rd a value.
    Give(u64),
    /// It loads `width` bytes from an address into rd, with their sign or without.
    Load {
        addr: u64,
        width: u8,
        with_sign: bool,
    },
    /// It stores the low `width` bytes of a value.
    Store {
        addr: u64,
        width: u8,
        value: u64,
    },
    /// It goes on at pc + imm if taken.
    Branch(bool),
    /// It gives rd the link, and goes on at the target.
    Jump {
        link: u64,
        target: u64,
    },
}

/// The address and the width in bytes of what the instruction reads at this hart, or none where it is no load.
pub fn needs_read(cpu: &Cpu, i: Instr) -> Option<(u64, u8)>
    requires { Fits i }
    ensures value { result ≡ read_at (hart_of cpu.now) i }
    ensures step { (bytes : ℕ) → result ≡ read_in (row (hart_of cpu.now) i bytes).1 }
    ensures some { IsSome result ↔ IsTrue (is_load i.op) }
    ensures width { IfSome result (λ p. IsWidth p.1) }
{
    loads(action_at(cpu, i))
}

/// The address and the width that an action loads from, if it loads.
fn loads(action: Action) -> Option<(u64, u8)>
    ensures { result ≡ loads_of (effect_by action) }
{
    match action {
        Action::Load { addr, width, .. } => Some((addr, width)),
        Action::Give(_) | Action::Store { .. } | Action::Branch(_) | Action::Jump { .. } => { None }
    }
}

/// Makes one step (RV64I 2.1), and gives its access. `read` is the bytes that `needs_read` asks for, as a
/// little-endian number, and none where it asks for none.
pub fn exec(cpu: &mut Cpu, i: Instr, read: Option<u64>) -> Access
    requires fits { Fits i }
    requires given { IsGiven (read_at (hart_of cpu.old) i) read }
    ensures state { hart_of cpu.new ≡ (row (hart_of cpu.old) i (unwrap_or read 0)).0 }
    ensures access { result ≡ (row (hart_of cpu.old) i (unwrap_or read 0)).1 }
{
    let action = action_at(cpu, i);
    apply(cpu, action, i, read.unwrap_or(0))
}

/// What the instruction does at this hart.
pub fn action_at(cpu: &Cpu, i: Instr) -> Action
    requires { Fits i }
    ensures effect { effect_by result ≡ effect_at (hart_of cpu.now) i }
    ensures width { HasWidth (effect_by result) }
{
    let a = cpu.x[i.rs1 as usize];
    let b = cpu.x[i.rs2 as usize];
    action_of(i.op, cpu.pc, a, b, i.imm.cast_unsigned())
}

/// The action of an op at `pc`, where `a` and `b` are its sources and `n` its immediate modulo 2^64.
#[tactic(auto, unfolding(crate::specs::Row::effect))]
fn action_of(op: Op, pc: u64, a: u64, b: u64, n: u64) -> Action
    ensures { effect_by result ≡ effect op pc a b n }
{
    match op {
        Op::Lui => Action::Give(word(n << 12)),
        Op::Auipc => Action::Give(pc.wrapping_add(word(n << 12))),
        Op::Jal => jump(pc, pc.wrapping_add(n)),
        Op::Jalr => jump(pc, a.wrapping_add(n) & !1),
        Op::Beq => Action::Branch(a == b),
        Op::Bne => Action::Branch(a != b),
        Op::Blt => Action::Branch(less(a, b)),
        Op::Bge => Action::Branch(!less(a, b)),
        Op::Bltu => Action::Branch(a < b),
        Op::Bgeu => Action::Branch(a >= b),
        Op::Lb => load(a.wrapping_add(n), 1, true),
        Op::Lh => load(a.wrapping_add(n), 2, true),
        Op::Lw => load(a.wrapping_add(n), 4, true),
        Op::Ld => load(a.wrapping_add(n), 8, false),
        Op::Lbu => load(a.wrapping_add(n), 1, false),
        Op::Lhu => load(a.wrapping_add(n), 2, false),
        Op::Lwu => load(a.wrapping_add(n), 4, false),
        Op::Sb => store(a.wrapping_add(n), 1, b),
        Op::Sh => store(a.wrapping_add(n), 2, b),
        Op::Sw => store(a.wrapping_add(n), 4, b),
        Op::Sd => store(a.wrapping_add(n), 8, b),
        Op::Addi => Action::Give(a.wrapping_add(n)),
        Op::Slti => Action::Give(flag(less(a, n))),
        Op::Sltiu => Action::Give(flag(a < n)),
        Op::Xori => Action::Give(a ^ n),
        Op::Ori => Action::Give(a | n),
        Op::Andi => Action::Give(a & n),
        Op::Slli => Action::Give(a << (n % 64)),
        Op::Srli => Action::Give(a >> (n % 64)),
        Op::Srai => Action::Give(shift_down(a, n % 64)),
        Op::Add => Action::Give(a.wrapping_add(b)),
        Op::Sll => Action::Give(a << (b % 64)),
        Op::Slt => Action::Give(flag(less(a, b))),
        Op::Sltu => Action::Give(flag(a < b)),
        Op::Xor => Action::Give(a ^ b),
        Op::Srl => Action::Give(a >> (b % 64)),
        Op::Or => Action::Give(a | b),
        Op::And => Action::Give(a & b),
        Op::Sub => Action::Give(a.wrapping_sub(b)),
        Op::Sra => Action::Give(shift_down(a, b % 64)),
        Op::Addiw => Action::Give(word(a.wrapping_add(n))),
        Op::Slliw => Action::Give(word(a << (n % 32))),
        Op::Srliw => Action::Give(word((a & 0xffff_ffff) >> (n % 32))),
        Op::Sraiw => Action::Give(shift_word_down(a, n % 32)),
        Op::Addw => Action::Give(word(a.wrapping_add(b))),
        Op::Sllw => Action::Give(word(a << (b % 32))),
        Op::Srlw => Action::Give(word((a & 0xffff_ffff) >> (b % 32))),
        Op::Subw => Action::Give(word(a.wrapping_sub(b))),
        Op::Sraw => Action::Give(shift_word_down(a, b % 32)),
        Op::Fence | Op::Ecall | Op::Ebreak => Action::Branch(false),
        Op::Mul => Action::Give(a.wrapping_mul(b)),
        Op::Mulh => Action::Give(high_signed(a, b)),
        Op::Mulhsu => Action::Give(high_mixed(a, b)),
        Op::Mulhu => Action::Give(high_unsigned(a, b)),
        Op::Div => Action::Give(quotient_signed(a, b)),
        Op::Divu => Action::Give(quotient_unsigned(a, b)),
        Op::Rem => Action::Give(remainder_signed(a, b)),
        Op::Remu => Action::Give(remainder_unsigned(a, b)),
        Op::Mulw => Action::Give(word(a.wrapping_mul(b))),
        Op::Divw => Action::Give(word(quotient_signed(word(a), word(b)))),
        Op::Divuw => Action::Give(word(quotient_unsigned(a & 0xffff_ffff, b & 0xffff_ffff))),
        Op::Remw => Action::Give(word(remainder_signed(word(a), word(b)))),
        Op::Remuw => Action::Give(word(remainder_unsigned(a & 0xffff_ffff, b & 0xffff_ffff))),
    }
}

fn jump(pc: u64, target: u64) -> Action
    ensures { effect_by result ≡ Jumps (word64 (pc + 4)) target }
{
    Action::Jump {
        link: pc.wrapping_add(4),
        target,
    }
}

fn load(addr: u64, width: u8, with_sign: bool) -> Action
    ensures { effect_by result ≡ Loads addr width with_sign }
{
    Action::Load {
        addr,
        width,
        with_sign,
    }
}

fn store(addr: u64, width: u8, value: u64) -> Action
    ensures { effect_by result ≡ Stores addr width value }
{
    Action::Store { addr, width, value }
}

/// Makes the step of an action, where `read` is the bytes that a load reads.
#[tactic(auto, unfolding(crate::specs::Row::after), using(crate::proofs::Steps::targets))]
pub fn apply(cpu: &mut Cpu, action: Action, i: Instr, read: u64) -> Access
    requires fits { Fits i }
    requires width { HasWidth (effect_by action) }
    ensures state { hart_of cpu.new
        ≡ (after (effect_by action) (hart_of cpu.old) i.rd (low 64 i.imm) read).0 }
    ensures access { result
        ≡ (after (effect_by action) (hart_of cpu.old) i.rd (low 64 i.imm) read).1 }
{
    let next = cpu.pc.wrapping_add(4);
    let near = cpu.pc.wrapping_add(i.imm.cast_unsigned());
    match action {
        Action::Give(value) => {
            put(cpu, i.rd, value);
            cpu.pc = next;
            Access::Quiet
        }
        Action::Load {
            addr,
            width,
            with_sign,
        } => {
            put(cpu, i.rd, loaded(with_sign, width, read));
            cpu.pc = next;
            Access::Read {
                addr,
                width,
                value: read,
            }
        }
        Action::Store { addr, width, value } => {
            cpu.pc = next;
            Access::Write {
                addr,
                width,
                value: low_bytes(value, width),
            }
        }
        Action::Branch(taken) => {
            cpu.pc = if taken { near } else { next };
            Access::Quiet
        }
        Action::Jump { link, target } => {
            put(cpu, i.rd, link);
            cpu.pc = target;
            Access::Quiet
        }
    }
}

/// Puts a value into register `rd`; x0 stays 0.
#[tactic(auto, using(crate::proofs::Steps::puts))]
fn put(cpu: &mut Cpu, rd: u8, value: u64)
    requires { rd < 32 }
    ensures x { cpu.new.x ≡ put_in cpu.old.x rd value }
    ensures pc { cpu.new.pc ≡ cpu.old.pc }
{
    if rd != 0 {
        cpu.x[rd as usize] = value;
    }
}
