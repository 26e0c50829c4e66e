// The checks of one pass, appended as words. Distances are in instructions, from the last of a part on.
ghost use Rattle.std.specs.Prelude.{◌≡◌, ◌+◌, ◌*◌, ◌/◌, ◌^◌, ◌<◌, ◌≤◌, [], ◌∷◌, ℕ, length, OnOk};
ghost use Rattle.tm_plan_cases.specs.Shaped.{AreShaped};
ghost use Rattle.tm_asm.specs.Sheet.{puts};
ghost use Rattle.tm_blocks_base.specs.Instrs.{addi};
ghost use Rattle.tm_blocks_compare.specs.Words.{register_loop, line_turn, window_check, own_check};

use tm_asm::Code;
use tm_base::NoMemory;
use tm_blocks_code::{add, addi, and, beq, bne, bne_back, ld, put_all, put_constant, subi, xor};
use tm_plan_cases::Cases;
use tm_plan_owned::{bytes_of, dwords_of, line_count, line_place, stride_of};

/// The 30 registers.
#[tactic(auto, unfolding(crate::specs::Words::register_loop))]
pub fn put_register_loop(code: &mut Code, far: u16) -> Result<(), NoMemory>
    requires { far ≤ 200 }
    ensures { OnOk result (code.new ≡ puts code.old (register_loop far)) }
{
    put_all(
        code,
        &[
            addi(10, 0, 2),
            addi(4, 0, 30),
            addi(8, 8, 1),
            and(6, 10, 5),
            beq(6, 0, 16),
            ld(6, 0, 1),
            ld(7, 0, 2),
            bne(6, 7, 4 * (6 + far)),
            addi(1, 1, 8),
            addi(2, 2, 8),
            add(10, 10, 10),
            subi(4, 4, 1),
            bne_back(4, 0, 40),
        ],
    )
}

// The lines of a window, of `n` dwords each and `b` bytes apart.
fn put_line_turn(code: &mut Code, n: u16, b: u16, far: u16) -> Result<(), NoMemory>
    requires numbers { (n ≤ 16) × (b < 2048) }
    requires near { far ≤ 200 }
    ensures { OnOk result (code.new ≡ puts code.old (line_turn n b far)) }
{
    put_all(
        code,
        &[
            addi(10, 0, n),
            addi(8, 8, 1),
            ld(6, 0, 1),
            ld(7, 0, 2),
            xor(6, 6, 7),
            ld(7, 0, 3),
            and(6, 6, 7),
            bne(6, 0, 4 * (9 + far)),
            addi(1, 1, 8),
            addi(2, 2, 8),
            addi(3, 3, 8),
            subi(10, 10, 1),
            bne_back(10, 0, 44),
            addi(3, 3, b),
            subi(4, 4, 1),
            bne_back(4, 0, 60),
        ],
    )
}

// How many lines there are.
fn put_count(code: &mut Code, lines: u16) -> Result<(), NoMemory>
    requires { lines < 2048 }
    ensures { OnOk result (code.new ≡ puts code.old (addi 4 0 lines ∷ [])) }
{
    put_all(code, &[addi(4, 0, lines)])
}

// So many lines, if there are any.
fn put_window_check(
    code: &mut Code,
    masks: u64,
    lines: u16,
    n: u16,
    b: u16,
    far: u16,
) -> Result<(), NoMemory>
    requires few { lines < 2048 }
    requires numbers { (n ≤ 16) × (b < 2048) }
    requires near { far ≤ 200 }
    ensures { OnOk result (code.new ≡ puts code.old (window_check masks lines n b far)) }
{
    if lines == 0 {
        return Ok(());
    }
    put_constant(code, 3, masks)?;
    put_count(code, lines)?;
    put_line_turn(code, n, b, far)
}

/// Hart `h`'s lines of window `v`.
pub fn put_own_check(
    code: &mut Code,
    cases: &Cases,
    h: u32,
    bytes: u64,
    v: u32,
    far: u16,
) -> Result<(), NoMemory>
    requires shaped { AreShaped cases.now }
    requires mine { h < cases.now.harts }
    requires window { v < 3 }
    requires place { bytes < 2 ^ 62 }
    requires near { far ≤ 200 }
    ensures { OnOk result (code.new ≡ puts code.old (own_check cases.now h bytes v far)) }
{
    put_window_check(
        code,
        bytes + line_place(cases, h, v),
        line_count(cases, h, v) as u16,
        dwords_of(cases),
        stride_of(cases) - bytes_of(cases),
        far,
    )
}

/// How many words it has.
pub fn check_length(cases: &Cases, h: u32, v: u32) -> u16
    requires shaped { AreShaped cases.now }
    requires mine { h < cases.now.harts }
    requires window { v < 3 }
    ensures is { (bytes : ℕ) → (far : ℕ) → length (own_check cases.now h bytes v far) ≡ result }
    ensures few { result ≤ 28 }
{
    if line_count(cases, h, v) == 0 { 0 } else { 28 }
}
