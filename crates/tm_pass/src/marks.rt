// Where the cases of one hart's text stand.
ghost use Rattle.std.specs.Prelude.{◌≡◌, ◌+◌, ◌*◌, ◌^◌, ◌<◌, ◌≤◌, [], ◌∷◌, ◌++◌, length, map, slice_index_or, OnOk};
ghost use Rattle.std.specs.Prelude.{IfOk};
ghost use Rattle.tm_base.specs.Lists.{count_from};
ghost use Rattle.tm_plan_cases.specs.Shaped.{AreShaped};
ghost use Rattle.tm_pass_text.specs.Words.{before_size, case_size, streams_of};
ghost use Rattle.tm_pass_text.specs.Hart.{blocks_of};
ghost use Rattle.tm_pass_place.specs.Built.{start_at, end_at, halt_at};

use crate::streams::{case_count, stream_of};
use std::alloc::Global;
use tm_base::{List, NoMemory};
use tm_pass_code::size_of;
use tm_plan_cases::Cases;

/// The addresses of a hart's streams, where each starts and where it ends, and the address behind the last case.
#[derive(Drop)]
pub struct CaseMarks {
    pub starts: List<u64>,
    pub ends: List<u64>,
    pub behind: u64,
}

/// The marks of all cases of hart `h`'s text, which begins at the address `base`.
pub fn case_marks(alloc: Global, cases: &Cases, h: u32, base: u64) -> Result<CaseMarks, NoMemory>
    requires shaped { AreShaped cases.now }
    requires mine { h < cases.now.harts }
    requires low { base + 56 < 2 ^ 32 }
    ensures starts { IfOk result (λ marks. marks.starts
        ≡ map (start_at cases.now h base) (count_from 0 (length cases.now.cases))) }
    ensures ends { IfOk result (λ marks. marks.ends
        ≡ map (end_at cases.now h base) (count_from 0 (length cases.now.cases))) }
    ensures behind { IfOk result (λ marks. marks.behind ≡ halt_at cases.now h base) }
{
    let mut marks = CaseMarks {
        starts: List::new(alloc),
        ends: List::new(alloc),
        behind: base + 56,
    };
    for c in 0..case_count(cases) {
        mark_case(alloc, &mut marks, cases, h, c)?;
    }
    Ok(marks)
}

// The marks of the next case.
fn mark_case(
    alloc: Global,
    marks: &mut CaseMarks,
    cases: &Cases,
    h: u32,
    c: u32,
) -> Result<(), NoMemory>
    requires shaped { AreShaped cases.now }
    requires mine { h < cases.now.harts }
    requires case { c < length cases.now.cases }
    requires low { marks.old.behind < 2 ^ 33 }
    ensures starts { OnOk result (marks.new.starts
        ≡ marks.old.starts ++ (marks.old.behind + 4 * before_size (blocks_of cases.now h) c) ∷ []) }
    ensures ends { OnOk result (marks.new.ends
        ≡ marks.old.ends ++ (marks.old.behind + 4 * before_size (blocks_of cases.now h) c
        + 4 * length (slice_index_or (streams_of cases.now h) c [])) ∷ []) }
    ensures behind { OnOk result (marks.new.behind
        ≡ marks.old.behind + 4 * case_size (blocks_of cases.now h) c
        (length (slice_index_or (streams_of cases.now h) c []))) }
{
    let size = size_of(alloc, cases, h, c)?;
    let start = marks.behind + 4 * size.before;
    let end = start + 4 * stream_of(cases, h, c).len() as u64;
    marks.starts.push(start)?;
    marks.ends.push(end)?;
    marks.behind = end + 4 * size.behind;
    Ok(())
}
