// Jumps of support code (RV64I 2.5). Distances are in bytes.
ghost use Rattle.std.specs.Prelude.{◌≡◌, ◌<◌, ◌≤◌, ◌%◌};
ghost use Rattle.tm_table.specs.Words.{Fits};
ghost use Rattle.tm_blocks_base.specs.Instrs.{jump_back};
ghost use Rattle.tm_pass_text.specs.Words.{call};

use tm_table::{Instr, Op};

/// Goes `n` bytes on, an even number up to 1,048,574, with the address behind in x1.
#[tactic(auto, using(tm_pass_text::proofs::Fitting::call_fits))]
pub fn call(n: u32) -> Instr
    requires even { n % 2 ≡ 0 }
    requires near { n ≤ 1048574 }
    ensures is { result ≡ call n }
    ensures fits { Fits result }
{
    Instr {
        op: Op::Jal,
        rd: 1,
        rs1: 0,
        rs2: 0,
        imm: i64::from(n),
    }
}

/// Goes `n` bytes back, an even number from 2 up to 1,048,576.
pub fn jump_back(n: u32) -> Instr
    requires even { n % 2 ≡ 0 }
    requires some { 2 ≤ n }
    requires near { n ≤ 1048576 }
    ensures is { result ≡ jump_back n }
    ensures fits { Fits result }
{
    Instr {
        op: Op::Jal,
        rd: 0,
        rs1: 0,
        rs2: 0,
        imm: -i64::from(n),
    }
}
