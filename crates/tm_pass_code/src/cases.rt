// The words of one case.
ghost use Rattle.std.specs.Prelude.{◌≡◌, ◌+◌, ◌*◌, ◌%◌, ◌^◌, ◌<◌, ◌≤◌, ◌++◌, length, OnOk, IfOk};
ghost use Rattle.tm_plan_cases.specs.Shaped.{AreShaped};
ghost use Rattle.tm_table.specs.Words.{words_of};
ghost use Rattle.tm_pass_text.specs.Words.{case_before, case_behind};
ghost use Rattle.tm_pass_text.specs.Hart.{blocks_of, first_at};
ghost use Rattle.tm_blocks_move.specs.Lines.{first_bytes, collect_all};
ghost use Rattle.tm_blocks_compare.specs.Words.{compare_case};

use crate::parts::{first_addr, put_before, put_behind};
use crate::words::append_code;
use std::alloc::Global;
use tm_asm::Code;
use tm_base::{NoMemory, Words};
use tm_blocks_compare::put_compare;
use tm_blocks_move::{put_collect, put_first_bytes};
use tm_plan_cases::Cases;

/// Appends the words before the stream of case `c`, where the barrier is `d` bytes on from its call.
pub fn append_before(
    alloc: Global,
    out: &mut Words,
    cases: &Cases,
    h: u32,
    c: u32,
    d: u32,
) -> Result<(), NoMemory>
    requires shaped { AreShaped cases.now }
    requires mine { h < cases.now.harts }
    requires case { c < 64 }
    requires even { d % 2 ≡ 0 }
    requires near { d ≤ 1048574 }
    ensures { OnOk result (out.new ≡ out.old ++ words_of (case_before (blocks_of cases.now h) c d)) }
{
    let mut code = Code::new(alloc);
    put_before(&mut code, cases, h, c, d)?;
    append_code(out, code)?;
    Ok(())
}

/// Appends the words behind the stream of case `c`, where the barrier is `d` bytes on from its call, and the first
/// bytes are `back` bytes back from the jump there.
pub fn append_behind(
    alloc: Global,
    out: &mut Words,
    cases: &Cases,
    h: u32,
    c: u32,
    back: u32,
    d: u32,
) -> Result<(), NoMemory>
    requires shaped { AreShaped cases.now }
    requires mine { h < cases.now.harts }
    requires case { c < 64 }
    requires back { (back % 2 ≡ 0) × (2 ≤ back) × (back ≤ 1048576) }
    requires even { d % 2 ≡ 0 }
    requires near { d ≤ 1048574 }
    ensures { OnOk result (out.new
        ≡ out.old ++ words_of (case_behind (blocks_of cases.now h) cases.now.passes c back d)) }
{
    let mut code = Code::new(alloc);
    put_behind(&mut code, cases, h, c, back, d)?;
    append_code(out, code)?;
    Ok(())
}

/// How many instructions set the first bytes of case `c`.
pub fn first_size(alloc: Global, cases: &Cases, h: u32, c: u32) -> Result<u64, NoMemory>
    requires shaped { AreShaped cases.now }
    requires mine { h < cases.now.harts }
    requires case { c < 64 }
    ensures is { IfOk result (λ n. n ≡ length (first_bytes cases.now h (first_at cases.now c))) }
    ensures few { IfOk result (λ n. n ≤ 183) }
{
    let mut code = Code::new(alloc);
    put_first_bytes(&mut code, cases, h, first_addr(cases, c))?;
    Ok(code.len())
}

/// How many instructions collect an end state.
pub fn collect_size(alloc: Global, cases: &Cases, h: u32) -> Result<u64, NoMemory>
    requires shaped { AreShaped cases.now }
    requires mine { h < cases.now.harts }
    ensures is { IfOk result (λ n. n ≡ length (collect_all cases.now h)) }
    ensures few { IfOk result (λ n. n ≤ 211) }
{
    let mut code = Code::new(alloc);
    put_collect(&mut code, cases, h)?;
    Ok(code.len())
}

/// How many instructions compare the passes of case `c`.
pub fn compare_size(alloc: Global, cases: &Cases, h: u32, c: u32) -> Result<u64, NoMemory>
    requires shaped { AreShaped cases.now }
    requires mine { h < cases.now.harts }
    requires case { c < 64 }
    ensures is { IfOk result (λ n. n ≡ length (compare_case cases.now c h)) }
    ensures few { IfOk result (λ n. n ≤ 143) }
{
    let mut code = Code::new(alloc);
    put_compare(&mut code, cases, c, h)?;
    Ok(code.len())
}
