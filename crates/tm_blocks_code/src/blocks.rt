// Blocks appended to code. Without memory a part may have been appended.
ghost use Rattle.std.specs.Prelude.{◌≡◌, ◌<◌, ◌≤◌, ◌*◌, ◌/◌, ◌%◌, ◌^◌, OnOk};
ghost use Rattle.tm_asm.specs.Sheet.{puts};
ghost use Rattle.tm_blocks_base.specs.Blocks.{constant, load_registers, save_registers};
ghost use Rattle.tm_blocks_base.specs.Laws.{ConstantRuns, LoadAllButLastRuns, LastLoadRuns, LoadRegistersRuns};
ghost use Rattle.tm_blocks_base.specs.Laws.{SaveRegistersRuns};

use crate::instrs::{addi, ld, sd, slli};
use crate::put::put_all;
use tm_asm::Code;
use tm_base::NoMemory;

/// Register `rd` becomes `value`.
pub fn put_constant(code: &mut Code, rd: u8, value: u64) -> Result<(), NoMemory>
    requires { (1 ≤ rd) × (rd < 32) }
    ensures words { OnOk result (code.new ≡ puts code.old (constant rd value)) }
    ensures runs { OnOk result (ConstantRuns rd value) }
{
    put_all(
        code,
        &[
            addi(rd, 0, (value >> 55) as u16),
            slli(rd, rd, 11),
            addi(rd, rd, part(value, 4)),
            slli(rd, rd, 11),
            addi(rd, rd, part(value, 3)),
            slli(rd, rd, 11),
            addi(rd, rd, part(value, 2)),
            slli(rd, rd, 11),
            addi(rd, rd, part(value, 1)),
            slli(rd, rd, 11),
            addi(rd, rd, part(value, 0)),
        ],
    )
}

// The 11 bits of `value` with index `k`.
fn part(value: u64, k: u32) -> u16
    requires { k < 5 }
    ensures is { result ≡ value / 2 ^ (11 * k) % 2 ^ 11 }
    ensures few { result < 2048 }
{
    ((value >> (11 * k)) % 2048) as u16
}

/// Registers 1 to 31 become the 31 dwords at the address `table`.
pub fn put_load_registers(code: &mut Code, table: u64) -> Result<(), NoMemory>
    ensures words { OnOk result (code.new ≡ puts code.old (load_registers table)) }
    ensures runs { OnOk result (LoadRegistersRuns table) }
    ensures runs_but_last { OnOk result (LoadAllButLastRuns table) }
    ensures runs_last { OnOk result (LastLoadRuns table) }
{
    put_constant(code, 31, table)?;
    for register in 1..32u8 {
        put_all(code, &[ld(register, 8 * u16::from(register - 1), 31)])?;
    }
    Ok(())
}

/// Registers 1 to 30 go to the 30 dwords at register 31.
pub fn put_save_registers(code: &mut Code) -> Result<(), NoMemory>
    ensures words { OnOk result (code.new ≡ puts code.old save_registers) }
    ensures runs { OnOk result SaveRegistersRuns }
{
    for register in 1..31u8 {
        put_all(code, &[sd(register, 8 * u16::from(register - 1), 31)])?;
    }
    Ok(())
}
