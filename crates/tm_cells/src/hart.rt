// The words of one hart.
ghost use Rattle.std.specs.Prelude.{ℕ, ◌≡◌, ◌+◌, ◌-◌, ◌*◌, ◌%◌, ◌^◌, ◌<◌, ◌≤◌, ◌++◌, [], ◌∷◌, IfOk, OnOk, length, slice_index};
ghost use Rattle.tm_asm.specs.Sheet.{puts};
ghost use Rattle.tm_table.specs.Words.{words_of};
ghost use Rattle.tm_barrier.specs.Words.{barrier};
ghost use Rattle.tm_plan_map.specs.Map.{private_at};
ghost use Rattle.tm_pass_text.specs.Words.{gate};
ghost use Rattle.tm_blocks_base.specs.Blocks.{constant};
ghost use Rattle.tm_cells_plan.specs.Sums.{IsPlan, cell_sum};
ghost use Rattle.tm_cells_code.specs.Words.{add_registers, add_words, adds_words, before_size, barrier_size};
ghost use Rattle.tm_cells_code.specs.Words.{checks_of, hart_size, hart_words, link_of, tail_code};

use crate::checks::{cell_addr, put_checks};
use std::alloc::Global;
use tm_asm::Code;
use tm_barrier::put_barrier;
use tm_base::{NoMemory, Words};
use tm_blocks_code::put_constant;
use tm_cells_plan::{CellPlan, addend, cell_of};
use tm_pass_code::{append_code, append_opening, barrier_size as words_of_barrier};
use tm_table::{Add, encode_add};

/// Appends the words of hart `h`, which begin at the address `base`.
pub fn append_hart(
    alloc: Global,
    out: &mut Words,
    plan: &CellPlan,
    sums: &[u64; 8],
    h: u32,
    base: u64,
) -> Result<HartMarks, NoMemory>
    requires plan { IsPlan plan.now }
    requires mine { h < plan.now.harts }
    requires sums { (q : ℕ) → q < 8 → slice_index sums.now q ≡ cell_sum plan.now q }
    requires low { base < 2 ^ 33 }
    ensures words { OnOk result (out.new ≡ out.old ++ hart_words plan.now h base) }
    ensures exit { IfOk result (λ marks. marks.exit ≡ base
        + 4 * (before_size plan.now + barrier_size plan.now h - 1)) }
    ensures behind { IfOk result (λ marks. marks.behind ≡ base + 4 * hart_size plan.now h) }
{
    let barrier = words_of_barrier(alloc, h, plan.harts)?;
    let link = base + 4 * (25 + 23 * u64::from(plan.adds) + barrier);
    let size = size_of(plan, h, barrier);
    append_words(alloc, out, plan, sums, h, link, (4 * (size - 2)) as u32)?;
    Ok(HartMarks {
        exit: link - 4,
        behind: base + 4 * size,
    })
}

// The words, where the address behind the barrier is known, and how far it is from the gate to the end.
fn append_words(
    alloc: Global,
    out: &mut Words,
    plan: &CellPlan,
    sums: &[u64; 8],
    h: u32,
    link: u64,
    far: u32,
) -> Result<(), NoMemory>
    requires plan { IsPlan plan.now }
    requires mine { h < plan.now.harts }
    requires sums { (q : ℕ) → q < 8 → slice_index sums.now q ≡ cell_sum plan.now q }
    requires even { far % 2 ≡ 0 }
    requires near { far ≤ 1048574 }
    ensures { OnOk result (out.new ≡ out.old ++ (words_of (gate h far ++ constant 31 (private_at h))
        ++ (adds_words plan.now.seed h 0 plan.now.adds
        ++ (words_of (constant 1 link ++ tail_code plan.now h) ++ (0x0000006F ∷ []))))) }
{
    append_opening(alloc, out, h, far)?;
    append_adds(alloc, out, plan, h)?;
    append_tail(alloc, out, plan, sums, h, link)?;
    out.push(0x0000_006F)?;
    Ok(())
}

/// The exit mark of a hart, and the address behind its words.
#[derive(Clone, Copy)]
pub struct HartMarks {
    pub exit: u64,
    pub behind: u64,
}

// How many words a hart has, with so many of its barrier.
fn size_of(plan: &CellPlan, h: u32, barrier: u64) -> u64
    requires plan { IsPlan plan.now }
    requires few { barrier ≤ 41 }
    requires barrier { barrier ≡ barrier_size plan.now h }
    ensures is { result ≡ hart_size plan.now h }
    ensures few { result ≤ 24000 }
{
    let rest = 26 + 23 * u64::from(plan.adds) + barrier;
    if h == 0 {
        return rest + 136;
    }
    rest
}

// All adds of a hart.
fn append_adds(alloc: Global, out: &mut Words, plan: &CellPlan, h: u32) -> Result<(), NoMemory>
    requires plan { IsPlan plan.now }
    requires mine { h < plan.now.harts }
    ensures { OnOk result (out.new ≡ out.old ++ adds_words plan.now.seed h 0 plan.now.adds) }
{
    for j in 0..plan.adds {
        append_add(alloc, out, plan.seed, h, j)?;
    }
    Ok(())
}

// One add.
fn append_add(alloc: Global, out: &mut Words, seed: u64, h: u32, j: u32) -> Result<(), NoMemory>
    requires hart { h < 16 }
    requires add { j < 1024 }
    ensures { OnOk result (out.new ≡ out.old ++ add_words seed h j) }
{
    append_registers(alloc, out, seed, h, j)?;
    out.push(encode_add(Add {
        rd: 5,
        rs1: 28,
        rs2: 6,
    }))?;
    Ok(())
}

fn append_registers(
    alloc: Global,
    out: &mut Words,
    seed: u64,
    h: u32,
    j: u32,
) -> Result<(), NoMemory>
    requires hart { h < 16 }
    requires add { j < 1024 }
    ensures { OnOk result (out.new ≡ out.old ++ words_of (add_registers seed h j)) }
{
    let mut code = Code::new(alloc);
    put_registers(&mut code, seed, h, j)?;
    append_code(out, code)?;
    Ok(())
}

// x6 and x28 of an add.
fn put_registers(code: &mut Code, seed: u64, h: u32, j: u32) -> Result<(), NoMemory>
    requires hart { h < 16 }
    requires add { j < 1024 }
    ensures { OnOk result (code.new ≡ puts code.old (add_registers seed h j)) }
{
    put_constant(code, 6, addend(seed, h, j))?;
    put_constant(code, 28, cell_addr(cell_of(seed, h, j)))?;
    Ok(())
}

// The address behind the barrier, the barrier, and what stands behind it.
fn append_tail(
    alloc: Global,
    out: &mut Words,
    plan: &CellPlan,
    sums: &[u64; 8],
    h: u32,
    link: u64,
) -> Result<(), NoMemory>
    requires plan { IsPlan plan.now }
    requires mine { h < plan.now.harts }
    requires sums { (q : ℕ) → q < 8 → slice_index sums.now q ≡ cell_sum plan.now q }
    ensures { OnOk result (out.new ≡ out.old ++ words_of (constant 1 link ++ tail_code plan.now h)) }
{
    let mut code = Code::new(alloc);
    put_tail(&mut code, plan, sums, h, link)?;
    append_code(out, code)?;
    Ok(())
}

fn put_tail(
    code: &mut Code,
    plan: &CellPlan,
    sums: &[u64; 8],
    h: u32,
    link: u64,
) -> Result<(), NoMemory>
    requires plan { IsPlan plan.now }
    requires mine { h < plan.now.harts }
    requires sums { (q : ℕ) → q < 8 → slice_index sums.now q ≡ cell_sum plan.now q }
    ensures { OnOk result (code.new ≡ puts code.old (constant 1 link ++ tail_code plan.now h)) }
{
    put_constant(code, 1, link)?;
    put_barrier(code, h, plan.harts)?;
    put_checks_of(code, plan, sums, h)?;
    Ok(())
}

// Hart 0 alone compares.
fn put_checks_of(code: &mut Code, plan: &CellPlan, sums: &[u64; 8], h: u32) -> Result<(), NoMemory>
    requires sums { (q : ℕ) → q < 8 → slice_index sums.now q ≡ cell_sum plan.now q }
    ensures { OnOk result (code.new ≡ puts code.old (checks_of plan.now h)) }
{
    if h == 0 {
        return put_checks(code, plan, sums);
    }
    Ok(())
}
