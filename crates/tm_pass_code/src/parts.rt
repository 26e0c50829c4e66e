// The parts of a hart's program, appended to code. Distances are in bytes.
ghost use Rattle.std.specs.Prelude.{◌≡◌, ◌+◌, ◌*◌, ◌%◌, ◌^◌, ◌<◌, ◌≤◌, ◌++◌, OnOk};
ghost use Rattle.tm_plan_cases.specs.Shaped.{AreShaped};
ghost use Rattle.tm_plan_map.specs.Map.{private_at};
ghost use Rattle.tm_asm.specs.Sheet.{puts};
ghost use Rattle.tm_blocks_base.specs.Blocks.{constant};
ghost use Rattle.tm_pass_text.specs.Words.{aim, case_before, case_behind, gate, turn};
ghost use Rattle.tm_pass_text.specs.Words.{call, reset};
ghost use Rattle.tm_pass_text.specs.Hart.{blocks_of, first_at, registers_at};
ghost use Rattle.std.specs.Prelude.{[], ◌∷◌};

use crate::instrs::{call, jump_back};
use tm_asm::Code;
use tm_base::NoMemory;
use tm_blocks_code::{
    add, addi, beq, jump, ld, put_all, put_constant, put_load_registers, put_save_registers, sd,
    slli,
};
use tm_blocks_compare::put_compare;
use tm_blocks_move::{put_collect, put_first_bytes};
use tm_plan_cases::Cases;
use tm_plan_map::{private_base, table_addr};

/// A hart with another number than `h` goes `n` bytes on from the third word; x31 becomes the private area.
pub fn put_opening(code: &mut Code, h: u32, n: u32) -> Result<(), NoMemory>
    requires mine { h < 16 }
    requires even { n % 2 ≡ 0 }
    requires near { n ≤ 1048574 }
    ensures { OnOk result (code.new ≡ puts code.old (gate h n ++ constant 31 (private_at h))) }
{
    put_gate(code, h, n)?;
    put_constant(code, 31, private_base(h))?;
    Ok(())
}

fn put_gate(code: &mut Code, h: u32, n: u32) -> Result<(), NoMemory>
    requires mine { h < 16 }
    requires even { n % 2 ≡ 0 }
    requires near { n ≤ 1048574 }
    ensures { OnOk result (code.new ≡ puts code.old (gate h n)) }
{
    put_all(code, &[addi(1, 0, h as u16), beq(1, 10, 8), jump(n)])
}

/// What stands before the stream of case `c`, where the barrier is `d` bytes on from its call.
pub fn put_before(code: &mut Code, cases: &Cases, h: u32, c: u32, d: u32) -> Result<(), NoMemory>
    requires shaped { AreShaped cases.now }
    requires mine { h < cases.now.harts }
    requires case { c < 64 }
    requires even { d % 2 ≡ 0 }
    requires near { d ≤ 1048574 }
    ensures { OnOk result (code.new ≡ puts code.old (case_before (blocks_of cases.now h) c d)) }
{
    put_reset(code)?;
    put_first_bytes(code, cases, h, first_addr(cases, c))?;
    put_call(code, d)?;
    put_load_registers(code, registers_addr(cases, h, c))?;
    Ok(())
}

/// What stands behind the stream of case `c`, where the barrier is `d` bytes on from its call, and the first bytes are
/// `back` bytes back from the jump there.
pub fn put_behind(
    code: &mut Code,
    cases: &Cases,
    h: u32,
    c: u32,
    back: u32,
    d: u32,
) -> Result<(), NoMemory>
    requires shaped { AreShaped cases.now }
    requires mine { h < cases.now.harts }
    requires case { c < 64 }
    requires back { (back % 2 ≡ 0) × (2 ≤ back) × (back ≤ 1048576) }
    requires even { d % 2 ≡ 0 }
    requires near { d ≤ 1048574 }
    ensures { OnOk result (code.new ≡ puts code.old (case_behind (blocks_of cases.now h) cases.now.passes c back d)) }
{
    put_save_registers(code)?;
    put_call(code, d)?;
    put_aim(code)?;
    put_collect(code, cases, h)?;
    put_turn(code, passes_of(cases), back)?;
    put_compare(code, cases, c, h)?;
    Ok(())
}

// The address of the first dwords of the windows in the table of case `c`.
#[tactic(auto, unfolding(tm_plan_map::specs::Map::table_at, tm_plan_map::specs::Map::tables_base))]
pub fn first_addr(cases: &Cases, c: u32) -> u64
    requires shaped { AreShaped cases.now }
    requires case { c < 64 }
    ensures is { result ≡ first_at cases.now c }
    ensures near { result < 2 ^ 63 }
{
    table_addr(cases.harts, c) + 256 * u64::from(cases.harts)
}

// The address of hart `h`'s first registers in the table of case `c`.
#[tactic(auto, unfolding(tm_plan_map::specs::Map::table_at, tm_plan_map::specs::Map::tables_base))]
fn registers_addr(cases: &Cases, h: u32, c: u32) -> u64
    requires shaped { AreShaped cases.now }
    requires mine { h < cases.now.harts }
    requires case { c < 64 }
    ensures { result ≡ registers_at cases.now h c }
{
    table_addr(cases.harts, c) + 256 * u64::from(h)
}

fn passes_of(cases: &Cases) -> u16
    requires { AreShaped cases.now }
    ensures is { result ≡ cases.now.passes }
    ensures few { result ≤ 8 }
{
    cases.passes as u16
}

// The pass counter is 0.
fn put_reset(code: &mut Code) -> Result<(), NoMemory>
    ensures { OnOk result (code.new ≡ puts code.old (reset ∷ [])) }
{
    put_all(code, &[sd(0, 264, 31)])
}

fn put_call(code: &mut Code, d: u32) -> Result<(), NoMemory>
    requires even { d % 2 ≡ 0 }
    requires near { d ≤ 1048574 }
    ensures { OnOk result (code.new ≡ puts code.old (call d ∷ [])) }
{
    put_all(code, &[call(d)])
}

// x9 is the save area of the pass that the counter says.
fn put_aim(code: &mut Code) -> Result<(), NoMemory>
    ensures { OnOk result (code.new ≡ puts code.old aim) }
{
    put_all(
        code,
        &[
            ld(9, 264, 31),
            slli(9, 9, 13),
            add(9, 9, 31),
            addi(1, 0, 1),
            slli(1, 1, 12),
            add(9, 9, 1),
        ],
    )
}

// The counter goes up, and where it isn't the number of passes yet, the hart goes back.
fn put_turn(code: &mut Code, passes: u16, back: u32) -> Result<(), NoMemory>
    requires few { passes ≤ 8 }
    requires back { (back % 2 ≡ 0) × (2 ≤ back) × (back ≤ 1048576) }
    ensures { OnOk result (code.new ≡ puts code.old (turn passes back)) }
{
    put_all(
        code,
        &[
            ld(1, 264, 31),
            addi(1, 1, 1),
            sd(1, 264, 31),
            addi(2, 0, passes),
            beq(1, 2, 8),
            jump_back(back),
        ],
    )
}
