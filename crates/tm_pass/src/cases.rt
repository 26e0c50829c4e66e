// The words of all cases of one hart.
ghost use Rattle.std.specs.Prelude.{◌≡◌, ◌+◌, ◌*◌, ◌%◌, ◌^◌, ◌<◌, ◌≤◌, [], ◌++◌, length, slice_index_or, OnOk, IfOk};
ghost use Rattle.tm_plan_cases.specs.Shaped.{AreShaped};
ghost use Rattle.tm_pass_text.specs.Words.{case_size, cases_words, streams_of};
ghost use Rattle.tm_pass_text.specs.Hart.{blocks_of};
ghost use Rattle.tm_pass_code.specs.Plain.{words_of_case};

use crate::streams::{case_count, stream_of};
use std::alloc::Global;
use tm_base::{NoMemory, Words};
use tm_pass_code::append_case;
use tm_plan_cases::Cases;

/// Appends the words of all cases of hart `h`, of which the first begins at the address `first`, where the barrier
/// stands at the address `barrier`. Without memory a part may have been appended.
pub fn append_cases(
    alloc: Global,
    out: &mut Words,
    cases: &Cases,
    h: u32,
    first: u64,
    barrier: u64,
) -> Result<(), NoMemory>
    requires shaped { AreShaped cases.now }
    requires mine { h < cases.now.harts }
    requires aligned { (first % 4 ≡ 0) × (barrier % 4 ≡ 0) }
    requires near { barrier ≤ first + 524288 }
    requires low { first < 2 ^ 32 }
    ensures { OnOk result (out.new ≡ out.old
        ++ cases_words (blocks_of cases.now h) cases.now.passes 0 (streams_of cases.now h) first barrier) }
{
    let mut at = first;
    for c in 0..case_count(cases) {
        at = append_next(alloc, out, cases, h, c, at, barrier)?;
    }
    Ok(())
}

// Appends the words of case `c`, and answers the address behind them.
fn append_next(
    alloc: Global,
    out: &mut Words,
    cases: &Cases,
    h: u32,
    c: u32,
    at: u64,
    barrier: u64,
) -> Result<u64, NoMemory>
    requires shaped { AreShaped cases.now }
    requires mine { h < cases.now.harts }
    requires case { c < length cases.now.cases }
    requires aligned { (at % 4 ≡ 0) × (barrier % 4 ≡ 0) }
    requires near { barrier ≤ at + 524288 }
    requires low { at < 2 ^ 33 }
    ensures words { OnOk result (out.new ≡ out.old
        ++ words_of_case cases.now h c (slice_index_or (streams_of cases.now h) c []) at barrier) }
    ensures behind { IfOk result (λ behind. behind
        ≡ at + 4 * case_size (blocks_of cases.now h) c (length (slice_index_or (streams_of cases.now h) c []))) }
{
    let before = out.as_slice().len();
    append_case(alloc, out, cases, h, c, stream_of(cases, h, c), at, barrier)?;
    let words = out.as_slice().len() - before;
    Ok(at + 4 * words as u64)
}
