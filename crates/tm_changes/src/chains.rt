// The lines of a script, chained by the words at which their slots stand.
ghost use Rattle.std.specs.Prelude.{◌≡◌, ◌+◌, ◌<◌, ◌^◌, ℕ, length, replicate, slice_get, Some, MatchOption, IfOk};
ghost use Rattle.tm_plan_cases.specs.Shaped.{IsProgram};
ghost use Rattle.tm_changes.specs.Scripted.{AreChained, IsAt};

use crate::names::start_at;
use std::alloc::Global;
use tm_base::NoMemory;
use tm_plan_cases::Program;
use tm_plan_map::TEXT_ADDRESS;
use tm_plan_script::FaultLine;

/// So many zeros.
pub fn zeros(alloc: Global, n: usize) -> Result<Vec<u32>, NoMemory>
    ensures { IfOk result (λ v. v.items ≡ replicate n 0) }
{
    match vec![in alloc; 0; n] {
        Ok(items) => Ok(items),
        Err(_) => Err(NoMemory),
    }
}

/// Chains all lines, from the first to the last: that which comes next stands before those that are chained already.
pub fn chain_all(program: &Program, lines: &[FaultLine], lasts: &mut [u32], befores: &mut [u32])
    requires program { IsProgram program.now }
    requires few { length lines.now < 2 ^ 32 }
    requires none { lasts.old ≡ replicate (length lasts.old) 0 }
    requires room { length befores.old ≡ length lines.now }
    ensures words { length lasts.new ≡ length lasts.old }
    ensures long { length befores.new ≡ length befores.old }
    ensures chained { AreChained program.now lines.now lasts.new befores.new (length lines.now) }
{
    for i in 0..lines.len() {
        chain(program, lines, i, lasts, befores);
    }
}

// Chains one line more.
fn chain(program: &Program, lines: &[FaultLine], i: usize, lasts: &mut [u32], befores: &mut [u32])
    requires program { IsProgram program.now }
    requires few { length lines.now < 2 ^ 32 }
    requires within { i < length lines.now }
    requires room { length befores.old ≡ length lines.now }
    ensures words { length lasts.new ≡ length lasts.old }
    ensures long { length befores.new ≡ length befores.old }
    ensures chained { AreChained program.now lines.now lasts.old befores.old i
        → AreChained program.now lines.now lasts.new befores.new (i + 1) }
{
    let Some(place) = place_of_line(program, &lines[i], lasts.len()) else {
        return;
    };
    befores[i] = lasts[place];
    lasts[place] = i as u32 + 1;
}

// The place of the word at a line's slot, where it is one of the first `count` of the text.
fn place_of_line(program: &Program, line: &FaultLine, count: usize) -> Option<usize>
    requires { IsProgram program.now }
    ensures { MatchOption result
        ((k : ℕ) → k < count → ¬ IsAt program.now line.now k)
        (λ k. (k < count) × IsAt program.now line.now k) }
{
    let start = start_at(program, line.hart, line.case);
    let at = match start.checked_add(4 * u64::from(line.slot)) {
        Some(at) => at,
        None => return None,
    };
    if at < TEXT_ADDRESS {
        return None;
    }
    let place = ((at - TEXT_ADDRESS) / 4) as usize;
    if place >= count {
        return None;
    }
    Some(place)
}
