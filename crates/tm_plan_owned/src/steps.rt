// How many steps a hart and a whole run may work.
ghost use Rattle.std.specs.Prelude.{◌≡◌, ◌+◌, ◌-◌, ◌*◌, ◌^◌, ◌<◌, ◌≤◌, length, slice_get};
ghost use Rattle.tm_plan_cases.specs.Shaped.{AreShaped};
ghost use Rattle.tm_plan_cases.specs.Collected.{owned, slots_of, pass_work, work_in, work_of, budget_of, sum_of};
ghost use Rattle.tm_base.specs.Lists.{count_from};
ghost use Rattle.tm_plan_owned.specs.Lines.{FewSlots};

use crate::dwords::owned;
use tm_plan_cases::{Case, Cases};

// The slots of hart `h` in a case.
fn slots_of(case: &Case, h: u32) -> u64
    ensures { result ≡ slots_of (slice_get case.now.streams h) }
{
    match case.streams.as_slice().get(h as usize) {
        Some(stream) => stream.words.as_slice().len() as u64,
        None => 0,
    }
}

// The steps of one pass of a case, by a hart that collects `dwords` dwords.
fn pass_work(cases: &Cases, h: u32, case: &Case, dwords: u64) -> u64
    requires slots { slots_of (slice_get case.now.streams h) ≤ 256 }
    requires harts { cases.now.harts ≤ 16 }
    requires dwords { dwords ≡ length (owned cases.now h) }
    requires few { dwords ≤ 1536 }
    ensures is { result ≡ pass_work cases.now h case.now }
    ensures near { result ≤ 60000 }
{
    slots_of(case, h) + 256 + 32 * u64::from(cases.harts) + 32 * (30 + dwords)
}

// The steps in these cases.
fn work_in(cases: &Cases, h: u32, list: &[Case], dwords: u64) -> u64
    requires slots { FewSlots h list.now }
    requires count { length list.now ≤ 64 }
    requires harts { cases.now.harts ≤ 16 }
    requires passes { cases.now.passes ≤ 8 }
    requires dwords { dwords ≡ length (owned cases.now h) }
    requires few { dwords ≤ 1536 }
    ensures is { result ≡ work_in cases.now h list.now }
    ensures near { result ≤ 500000 * length list.now }
{
    let [case, more @ ..] = list else {
        return 0;
    };
    let one = 64 + u64::from(cases.passes) * pass_work(cases, h, case, dwords);
    one + work_in(cases, h, more, dwords)
}

/// The steps that hart `h` may work in a whole run: 64 more than the sum over the cases of 64 more than, for each pass,
/// the slots of its stream, 256, 32 a hart, and 32 a saved dword.
#[tactic(auto, unfolding(tm_plan_cases::specs::Collected::work_of))]
pub fn work(cases: &Cases, h: u32) -> u64
    requires shaped { AreShaped cases.now }
    requires mine { h < cases.now.harts }
    ensures is { result ≡ work_of cases.now h }
    ensures near { result ≤ 2 ^ 25 }
{
    64 + work_in(cases, h, cases.cases.as_slice(), owned(cases, h))
}

/// How many events are enough for a whole run in which no hart reads idly: for each hart the work of all harts, and 16
/// for each case and pass.
#[tactic(auto, unfolding(tm_plan_cases::specs::Collected::budget_of))]
pub fn budget(cases: &Cases) -> u64
    requires { AreShaped cases.now }
    ensures { result ≡ budget_of cases.now }
{
    let passes = cases.cases.as_slice().len() as u64 * u64::from(cases.passes);
    u64::from(cases.harts) * (work_from(cases, 0) + 16 * passes)
}

// The work of all harts from `h` on.
fn work_from(cases: &Cases, h: u32) -> u64
    requires shaped { AreShaped cases.now }
    requires here { h ≤ cases.now.harts }
    ensures is { result ≡ sum_of (work_of cases.now) (count_from h (cases.now.harts - h)) }
    ensures near { result ≤ 2 ^ 25 * (cases.now.harts - h) }
{
    if h == cases.harts {
        return 0;
    }
    work(cases, h) + work_from(cases, h + 1)
}
