// The verdicts of a journal, by the cells to which they are written.
ghost use Rattle.std.specs.Prelude.{◌≡◌, ◌≢◌, ℕ, ◌+◌, ◌*◌, ◌<◌, IfOk, MatchOption, length, slice_index, replicate};
ghost use Rattle.std.specs.Prelude.{unwrap_or};
ghost use Rattle.tm_plan_map.specs.Map.{verdict_at};
ghost use Rattle.tm_plan_cases.specs.Shaped.{AreShaped, IsProgram};
ghost use Rattle.tm_report_run.specs.Verdicts.{put_at, verdict_from, verdict_in, verdicts_of};

use crate::numbers::Verdicts;
use std::alloc::Global;
use tm_base::NoMemory;
use tm_plan_cases::{Cases, Program, verdict_addr};
use tm_plan_journal::Journal;
use tm_table::Access;

// So many zeros.
fn zeros(alloc: Global, n: usize) -> Result<Vec<u64>, NoMemory>
    ensures { IfOk result (λ v. v.items ≡ replicate n 0) }
{
    match vec![in alloc; 0; n] {
        Ok(items) => Ok(items),
        Err(_) => Err(NoMemory),
    }
}

// The number of the verdict whose cell stands at an address.
#[tactic(auto, unfolding(tm_plan_map::specs::Map::verdict_at))]
fn cell_at(cases: &Cases, addr: u64) -> Option<usize>
    requires { AreShaped cases.now }
    ensures { MatchOption result
        ((c h : ℕ) → c < length cases.now.cases → h < cases.now.harts → verdict_at c h ≢ addr)
        (λ k. (c : ℕ) × (h : ℕ) × (c < length cases.now.cases) × (h < cases.now.harts) × (verdict_at c h ≡ addr)
        × (k ≡ c * cases.now.harts + h)) }
{
    let first = verdict_addr(0, 0);
    if addr < first {
        return None;
    }
    let place = addr - first;
    let case = place / 128;
    let hart = place % 128 / 8;
    if place % 8 != 0 {
        return None;
    }
    if case >= cases.cases.as_slice().len() as u64 {
        return None;
    }
    if hart >= u64::from(cases.harts) {
        return None;
    }
    Some(case as usize * cases.harts as usize + hart as usize)
}

// Keeps what an access writes to a verdict cell.
fn keep(table: &mut [u64], cases: &Cases, access: Access)
    requires shaped { AreShaped cases.now }
    requires count { length table.old ≡ length cases.now.cases * cases.now.harts }
    ensures { (c h : ℕ) → c < length cases.now.cases → h < cases.now.harts
        → slice_index table.new (c * cases.now.harts + h)
        ≡ unwrap_or (put_at (verdict_at c h) access) (slice_index table.old (c * cases.now.harts + h)) }
{
    let Access::Write {
        addr,
        width: 8,
        value,
    } = access
    else {
        return;
    };
    if let Some(cell) = cell_at(cases, addr) {
        table[cell] = value;
    }
}

// Keeps what the events of a journal write to verdict cells, the last of each.
fn keep_all(table: &mut [u64], cases: &Cases, journal: &Journal)
    requires shaped { AreShaped cases.now }
    requires count { length table.old ≡ length cases.now.cases * cases.now.harts }
    ensures { (c h : ℕ) → c < length cases.now.cases → h < cases.now.harts
        → slice_index table.new (c * cases.now.harts + h)
        ≡ verdict_from (slice_index table.old (c * cases.now.harts + h)) journal.now.events c h }
{
    for place in 0..journal.len() {
        keep(table, cases, journal.at(place).access);
    }
}

/// The verdicts that the events of a journal hold: for each case and hart the value of the last write of 8 bytes at
/// their verdict cell, and 0 where there is none.
///
/// It goes over the journal once.
pub fn verdicts(alloc: Global, program: &Program, journal: &Journal) -> Result<Verdicts, NoMemory>
    requires { IsProgram program.now }
    ensures is { IfOk result (λ v. v ≡ verdicts_of program.now.cases journal.now.events) }
    ensures count { IfOk result (λ v. length v ≡ length program.now.cases.cases * program.now.cases.harts) }
    ensures each { IfOk result (λ v. (c h : ℕ) → c < length program.now.cases.cases → h < program.now.cases.harts
        → slice_index v (c * program.now.cases.harts + h) ≡ verdict_in journal.now.events c h) }
{
    let cases = &program.cases;
    let mut items = zeros(alloc, cases.cases.as_slice().len() * cases.harts as usize)?;
    keep_all(items.as_mut_slice(), cases, journal);
    Ok(Verdicts::of(items))
}
