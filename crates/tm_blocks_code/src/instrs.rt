// Instructions of support code (RV64I 2.1). Registers are below 32, and distances are in bytes.
ghost use Rattle.std.specs.Prelude.{◌≡◌, ◌<◌, ◌≤◌, ◌%◌};
ghost use Rattle.tm_table.specs.Words.{Fits};
ghost use Rattle.tm_blocks_base.specs.Instrs.{add, addi, and, beq, bltu_back, bne, bne_back, fence, go_to, jump, ld};
ghost use Rattle.tm_blocks_base.specs.Instrs.{sd, slli, subi, xor};

use tm_table::{Instr, Op};

/// Register `rd` becomes register `rs1` plus `n`, below 2048.
#[tactic(auto, using(tm_blocks_base::proofs::Fitting::addi_fits))]
pub fn addi(rd: u8, rs1: u8, n: u16) -> Instr
    requires registers { (rd < 32) × (rs1 < 32) }
    requires number { n < 2048 }
    ensures is { result ≡ addi rd rs1 n }
    ensures fits { Fits result }
{
    Instr {
        op: Op::Addi,
        rd,
        rs1,
        rs2: 0,
        imm: i64::from(n),
    }
}

/// Register `rd` becomes register `rs1` minus `n`, from 1 up to 2048.
pub fn subi(rd: u8, rs1: u8, n: u16) -> Instr
    requires registers { (rd < 32) × (rs1 < 32) }
    requires some { 1 ≤ n }
    requires number { n ≤ 2048 }
    ensures is { result ≡ subi rd rs1 n }
    ensures fits { Fits result }
{
    Instr {
        op: Op::Addi,
        rd,
        rs1,
        rs2: 0,
        imm: -i64::from(n),
    }
}

/// Register `rd` becomes register `rs1` shifted left by `n`, below 64.
#[tactic(auto, using(tm_blocks_base::proofs::Fitting::slli_fits))]
pub fn slli(rd: u8, rs1: u8, n: u8) -> Instr
    requires registers { (rd < 32) × (rs1 < 32) }
    requires number { n < 64 }
    ensures is { result ≡ slli rd rs1 n }
    ensures fits { Fits result }
{
    Instr {
        op: Op::Slli,
        rd,
        rs1,
        rs2: 0,
        imm: i64::from(n),
    }
}

/// Register `rd` becomes the sum of registers `rs1` and `rs2`.
#[tactic(auto, using(tm_blocks_base::proofs::Fitting::add_fits))]
pub fn add(rd: u8, rs1: u8, rs2: u8) -> Instr
    requires { (rd < 32) × (rs1 < 32) × (rs2 < 32) }
    ensures is { result ≡ add rd rs1 rs2 }
    ensures fits { Fits result }
{
    Instr {
        op: Op::Add,
        rd,
        rs1,
        rs2,
        imm: 0,
    }
}

/// Register `rd` becomes registers `rs1` and `rs2` by exclusive or.
#[tactic(auto, using(tm_blocks_base::proofs::Fitting::xor_fits))]
pub fn xor(rd: u8, rs1: u8, rs2: u8) -> Instr
    requires { (rd < 32) × (rs1 < 32) × (rs2 < 32) }
    ensures is { result ≡ xor rd rs1 rs2 }
    ensures fits { Fits result }
{
    Instr {
        op: Op::Xor,
        rd,
        rs1,
        rs2,
        imm: 0,
    }
}

/// Register `rd` becomes registers `rs1` and `rs2` by and.
#[tactic(auto, using(tm_blocks_base::proofs::Fitting::and_fits))]
pub fn and(rd: u8, rs1: u8, rs2: u8) -> Instr
    requires { (rd < 32) × (rs1 < 32) × (rs2 < 32) }
    ensures is { result ≡ and rd rs1 rs2 }
    ensures fits { Fits result }
{
    Instr {
        op: Op::And,
        rd,
        rs1,
        rs2,
        imm: 0,
    }
}

/// Register `rd` becomes the dword at register `base` plus `n`, below 2048.
#[tactic(auto, using(tm_blocks_base::proofs::Fitting::ld_fits))]
pub fn ld(rd: u8, n: u16, base: u8) -> Instr
    requires registers { (rd < 32) × (base < 32) }
    requires number { n < 2048 }
    ensures is { result ≡ ld rd n base }
    ensures fits { Fits result }
{
    Instr {
        op: Op::Ld,
        rd,
        rs1: base,
        rs2: 0,
        imm: i64::from(n),
    }
}

/// The dword at register `base` plus `n`, below 2048, becomes register `source`.
#[tactic(auto, using(tm_blocks_base::proofs::Fitting::sd_fits))]
pub fn sd(source: u8, n: u16, base: u8) -> Instr
    requires registers { (source < 32) × (base < 32) }
    requires number { n < 2048 }
    ensures is { result ≡ sd source n base }
    ensures fits { Fits result }
{
    Instr {
        op: Op::Sd,
        rd: 0,
        rs1: base,
        rs2: source,
        imm: i64::from(n),
    }
}

/// Goes `n` bytes on, an even number up to 4094, where registers `rs1` and `rs2` are equal.
#[tactic(auto, using(tm_blocks_base::proofs::Fitting::beq_fits))]
pub fn beq(rs1: u8, rs2: u8, n: u16) -> Instr
    requires registers { (rs1 < 32) × (rs2 < 32) }
    requires even { n % 2 ≡ 0 }
    requires near { n ≤ 4094 }
    ensures is { result ≡ beq rs1 rs2 n }
    ensures fits { Fits result }
{
    Instr {
        op: Op::Beq,
        rd: 0,
        rs1,
        rs2,
        imm: i64::from(n),
    }
}

/// Goes `n` bytes on, an even number up to 4094, where registers `rs1` and `rs2` differ.
#[tactic(auto, using(tm_blocks_base::proofs::Fitting::bne_fits))]
pub fn bne(rs1: u8, rs2: u8, n: u16) -> Instr
    requires registers { (rs1 < 32) × (rs2 < 32) }
    requires even { n % 2 ≡ 0 }
    requires near { n ≤ 4094 }
    ensures is { result ≡ bne rs1 rs2 n }
    ensures fits { Fits result }
{
    Instr {
        op: Op::Bne,
        rd: 0,
        rs1,
        rs2,
        imm: i64::from(n),
    }
}

/// Goes `n` bytes back, an even number from 2 up to 4096, where registers `rs1` and `rs2` differ.
pub fn bne_back(rs1: u8, rs2: u8, n: u16) -> Instr
    requires registers { (rs1 < 32) × (rs2 < 32) }
    requires even { n % 2 ≡ 0 }
    requires some { 2 ≤ n }
    requires near { n ≤ 4096 }
    ensures is { result ≡ bne_back rs1 rs2 n }
    ensures fits { Fits result }
{
    Instr {
        op: Op::Bne,
        rd: 0,
        rs1,
        rs2,
        imm: -i64::from(n),
    }
}

/// Goes `n` bytes back, an even number from 2 up to 4096, where register `rs1` is less than `rs2`.
pub fn bltu_back(rs1: u8, rs2: u8, n: u16) -> Instr
    requires registers { (rs1 < 32) × (rs2 < 32) }
    requires even { n % 2 ≡ 0 }
    requires some { 2 ≤ n }
    requires near { n ≤ 4096 }
    ensures is { result ≡ bltu_back rs1 rs2 n }
    ensures fits { Fits result }
{
    Instr {
        op: Op::Bltu,
        rd: 0,
        rs1,
        rs2,
        imm: -i64::from(n),
    }
}

/// Goes `n` bytes on, an even number up to 1,048,574.
#[tactic(auto, using(tm_blocks_base::proofs::Fitting::jump_fits))]
pub fn jump(n: u32) -> Instr
    requires even { n % 2 ≡ 0 }
    requires near { n ≤ 1048574 }
    ensures is { result ≡ jump n }
    ensures fits { Fits result }
{
    Instr {
        op: Op::Jal,
        rd: 0,
        rs1: 0,
        rs2: 0,
        imm: i64::from(n),
    }
}

/// Goes to the address in register `rs1`.
#[tactic(auto, using(tm_blocks_base::proofs::Fitting::go_to_fits))]
pub fn go_to(rs1: u8) -> Instr
    requires { rs1 < 32 }
    ensures is { result ≡ go_to rs1 }
    ensures fits { Fits result }
{
    Instr {
        op: Op::Jalr,
        rd: 0,
        rs1,
        rs2: 0,
        imm: 0,
    }
}

/// All reads and writes before come before all behind it (RV64I 2.7).
#[tactic(auto, using(tm_blocks_base::proofs::Fitting::fence_fits))]
pub fn fence() -> Instr
    ensures is { result ≡ fence }
    ensures fits { Fits result }
{
    Instr {
        op: Op::Fence,
        rd: 0,
        rs1: 0,
        rs2: 0,
        imm: 0x33,
    }
}
