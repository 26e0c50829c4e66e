// The comparison of all passes, appended as words.
ghost use Rattle.std.specs.Prelude.{◌≡◌, ◌+◌, ◌*◌, ◌^◌, ◌<◌, ◌≤◌, [], ◌∷◌, length, OnOk};
ghost use Rattle.tm_plan_cases.specs.Shaped.{AreShaped};
ghost use Rattle.tm_plan_map.specs.Map.{verdict_at};
ghost use Rattle.tm_asm.specs.Sheet.{puts};
ghost use Rattle.tm_blocks_base.specs.Instrs.{add, addi, ld, sd, slli};
ghost use Rattle.tm_blocks_base.specs.Laws.{LastStoreRuns};
ghost use Rattle.tm_blocks_compare.specs.Words.{pass_head, pass_body, pass_tail, all_passes, closing, compare_case};
ghost use Rattle.tm_blocks_compare.specs.Words.{case_masks, case_bytes};
ghost use Rattle.tm_blocks_compare.specs.Runs.{CaseRuns, CaseNamesLeast};

use crate::checks::{check_length, put_own_check, put_register_loop};
use tm_asm::Code;
use tm_base::NoMemory;
use tm_blocks_code::{add, addi, bne_back, jump, ld, put_all, put_constant, sd, slli};
use tm_plan_cases::Cases;
use tm_plan_map::{save_addr, table_addr, verdict_addr};

/// Compares the saved dwords of all passes of case `c`, below 64, with those of pass 0, under the masks of the case's
/// table, and writes hart `h`'s verdict cell once. It changes x1 to x10 alone. Without memory a part may have been
/// appended.
pub fn put_compare(code: &mut Code, cases: &Cases, c: u32, h: u32) -> Result<(), NoMemory>
    requires shaped { AreShaped cases.now }
    requires mine { h < cases.now.harts }
    requires case { c < 64 }
    ensures words { OnOk result (code.new ≡ puts code.old (compare_case cases.now c h)) }
    ensures short { OnOk result (length (compare_case cases.now c h) ≤ 143) }
    ensures runs { OnOk result (CaseRuns cases.now c h) }
    ensures last { OnOk result (LastStoreRuns (verdict_at c h)) }
    ensures least { OnOk result (CaseNamesLeast cases.now c h) }
{
    put_constant(code, 4, masks_of(cases, h, c))?;
    put_opening(code)?;
    put_all_passes(code, cases, h, save_addr(h, 0), bytes_at(cases, c))?;
    put_closing(code)?;
    put_constant(code, 7, verdict_addr(c, h))?;
    put_store(code)
}

// The registers' mask goes to x5, and x9 is pass 1.
fn put_opening(code: &mut Code) -> Result<(), NoMemory>
    ensures { OnOk result (code.new ≡ puts code.old (ld 5 0 4 ∷ addi 9 0 1 ∷ [])) }
{
    put_all(code, &[ld(5, 0, 4), addi(9, 0, 1)])
}

// The verdict goes to its cell.
fn put_store(code: &mut Code) -> Result<(), NoMemory>
    ensures { OnOk result (code.new ≡ puts code.old (sd 8 0 7 ∷ [])) }
{
    put_all(code, &[sd(8, 0, 7)])
}

// Where the mask of the registers stands.
#[tactic(auto, unfolding(crate::specs::Words::case_masks, tm_plan_map::specs::Map::table_at, tm_plan_map::specs::Map::tables_base))]
fn masks_of(cases: &Cases, h: u32, c: u32) -> u64
    requires shaped { AreShaped cases.now }
    requires mine { h < cases.now.harts }
    requires case { c < 64 }
    ensures { result ≡ case_masks cases.now h c }
{
    table_addr(cases.harts, c) + 256 * u64::from(h) + 248
}

// Where the mask bytes of the windows stand.
#[tactic(auto, unfolding(crate::specs::Words::case_bytes, tm_plan_map::specs::Map::table_at, tm_plan_map::specs::Map::tables_base))]
fn bytes_at(cases: &Cases, c: u32) -> u64
    requires shaped { AreShaped cases.now }
    requires case { c < 64 }
    ensures is { result ≡ case_bytes cases.now c }
    ensures near { result < 2 ^ 62 }
{
    table_addr(cases.harts, c) + 256 * u64::from(cases.harts) + 6144
}

fn put_closing(code: &mut Code) -> Result<(), NoMemory>
    ensures { OnOk result (code.new ≡ puts code.old closing) }
{
    put_all(
        code,
        &[addi(8, 0, 0), jump(12), slli(9, 9, 32), add(8, 8, 9)],
    )
}

fn put_all_passes(
    code: &mut Code,
    cases: &Cases,
    h: u32,
    first: u64,
    bytes: u64,
) -> Result<(), NoMemory>
    requires shaped { AreShaped cases.now }
    requires mine { h < cases.now.harts }
    requires near { bytes < 2 ^ 62 }
    ensures { OnOk result (code.new ≡ puts code.old (all_passes cases.now h first bytes)) }
{
    let long = 27
        + check_length(cases, h, 0)
        + check_length(cases, h, 1)
        + check_length(cases, h, 2);
    put_pass_head(code, first)?;
    put_pass_body(code, cases, h, bytes)?;
    put_pass_tail(code, passes_of(cases), long)
}

fn passes_of(cases: &Cases) -> u16
    requires { AreShaped cases.now }
    ensures is { result ≡ cases.now.passes }
    ensures few { result ≤ 8 }
{
    cases.passes as u16
}

fn put_pass_head(code: &mut Code, first: u64) -> Result<(), NoMemory>
    ensures { OnOk result (code.new ≡ puts code.old (pass_head first)) }
{
    put_constant(code, 1, first)?;
    put_pointers(code)
}

// x2 points to the dwords of pass x9, and x8 counts from 0.
fn put_pointers(code: &mut Code) -> Result<(), NoMemory>
    ensures { OnOk result (code.new ≡ puts code.old (slli 2 9 13 ∷ add 2 2 1 ∷ addi 8 0 0 ∷ [])) }
{
    put_all(code, &[slli(2, 9, 13), add(2, 2, 1), addi(8, 0, 0)])
}

fn put_pass_body(code: &mut Code, cases: &Cases, h: u32, bytes: u64) -> Result<(), NoMemory>
    requires shaped { AreShaped cases.now }
    requires mine { h < cases.now.harts }
    requires near { bytes < 2 ^ 62 }
    ensures { OnOk result (code.new ≡ puts code.old (pass_body cases.now h bytes)) }
{
    let last = check_length(cases, h, 2);
    let next = check_length(cases, h, 1);
    let first = check_length(cases, h, 0);
    put_register_loop(code, 5 + last + next + first)?;
    put_own_check(code, cases, h, bytes, 0, 5 + last + next)?;
    put_own_check(code, cases, h, bytes, 1, 5 + last)?;
    put_own_check(code, cases, h, bytes, 2, 5)
}

fn put_pass_tail(code: &mut Code, passes: u16, long: u16) -> Result<(), NoMemory>
    requires { (passes ≤ 8) × (long ≤ 200) }
    ensures { OnOk result (code.new ≡ puts code.old (pass_tail passes long)) }
{
    put_all(
        code,
        &[
            addi(9, 9, 1),
            addi(10, 0, passes),
            bne_back(9, 10, 4 * (long + 2)),
        ],
    )
}
