// How many words a case has.
ghost use Rattle.std.specs.Prelude.{◌≡◌, ◌+◌, ◌<◌, ◌≤◌, IfOk};
ghost use Rattle.tm_plan_cases.specs.Shaped.{AreShaped};
ghost use Rattle.tm_pass_text.specs.Words.{before_size, behind_size};
ghost use Rattle.tm_pass_text.specs.Hart.{blocks_of};

use crate::cases::{collect_size, compare_size, first_size};
use std::alloc::Global;
use tm_base::NoMemory;
use tm_plan_cases::Cases;

/// How many words of a case stand before its stream, and how many behind it.
#[derive(Clone, Copy, Debug, PartialEq, Eq)]
pub struct CaseSize {
    pub before: u64,
    pub behind: u64,
}

/// How many words case `c` of hart `h` has beside its stream.
pub fn size_of(alloc: Global, cases: &Cases, h: u32, c: u32) -> Result<CaseSize, NoMemory>
    requires shaped { AreShaped cases.now }
    requires mine { h < cases.now.harts }
    requires case { c < 64 }
    ensures before { IfOk result (λ size. size.before ≡ before_size (blocks_of cases.now h) c) }
    ensures behind { IfOk result (λ size. size.behind ≡ behind_size (blocks_of cases.now h) c) }
    ensures few { IfOk result (λ size. size.before + size.behind ≤ 768) }
{
    let first = first_size(alloc, cases, h, c)?;
    let collect = collect_size(alloc, cases, h)?;
    let compare = compare_size(alloc, cases, h, c)?;
    Ok(CaseSize {
        before: 44 + first,
        behind: 43 + collect + compare,
    })
}
