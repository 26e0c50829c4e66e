// The line that sums up a sample.
ghost use Rattle.std.specs.Prelude.{◌≡◌, ◌==◌, ◌<◌, ◌^◌, IfOk, length, not, sum_by, count_by};
ghost use Rattle.tm_plan_cases.specs.Shaped.{AreShaped};
ghost use Rattle.tm_plan_cases.specs.declared.cases.Case.{Case};
ghost use Rattle.tm_plan_cases.specs.declared.cases.Stream.{Stream};
ghost use Rattle.tm_top_owed.specs.Sample as form;

use std::alloc::Global;
use tm_base::{Bytes, NoMemory, Text, push_decimal};
use tm_plan_cases::{Case, Cases, Stream};
use tm_report_run::Verdicts;

// How many slots these streams have.
fn slots_in(streams: &[Stream]) -> u64
    requires { sum_by (λ (s : Stream). length s.words) streams.now < 2 ^ 64 }
    ensures { result ≡ sum_by (λ (s : Stream). length s.words) streams.now }
{
    let mut slots = 0;
    for stream in streams {
        slots += stream.words.as_slice().len() as u64;
    }
    slots
}

// How many slots all streams of these cases have.
fn slots_of(cases: &[Case]) -> u64
    requires { sum_by (λ (case : Case). sum_by (λ (s : Stream). length s.words) case.streams) cases.now < 2 ^ 64 }
    ensures { result ≡ sum_by (λ (case : Case). sum_by (λ (s : Stream). length s.words) case.streams) cases.now }
{
    let mut slots = 0;
    for case in cases {
        slots += slots_in(case.streams.as_slice());
    }
    slots
}

// How many verdicts aren't 0.
fn count_reported(verdicts: &[u64]) -> usize
    ensures { result ≡ form.count_reported verdicts.now }
{
    verdicts.iter().filter(|verdict| **verdict != 0).count()
}

/// The line of sample `n`, by its cases and the verdicts on them: how many harts, cases, passes and slots there are,
/// and how many verdicts aren't 0.
#[tactic(auto, using(crate::proofs::Sums::slots_low), unfolding(tm_top_owed::specs::Sample::summary))]
pub fn summary_text(alloc: Global, n: u64, cases: &Cases, v: &Verdicts) -> Result<Text, NoMemory>
    requires shaped { AreShaped cases.now }
    ensures { IfOk result (λ text. text ≡ form.summary n cases.now v.now) }
{
    let mut out = Bytes::new(alloc);
    out.append(b"sample ")?;
    push_decimal(&mut out, n)?;
    out.append(b": harts ")?;
    push_decimal(&mut out, u64::from(cases.harts))?;
    out.append(b", cases ")?;
    push_decimal(&mut out, cases.cases.as_slice().len() as u64)?;
    out.append(b", passes ")?;
    push_decimal(&mut out, u64::from(cases.passes))?;
    out.append(b", words ")?;
    push_decimal(&mut out, slots_of(cases.cases.as_slice()))?;
    out.append(b", reported ")?;
    push_decimal(&mut out, count_reported(v.as_slice()) as u64)?;
    out.push(b'\n')?;
    Ok(out)
}
