// The texts on a run.
ghost use Rattle.std.specs.Prelude.{◌≡◌, ◌++◌, ◌+◌, ◌*◌, ◌<◌, ◌==◌, ℕ, OnOk, IfOk, length, slice_index};
ghost use Rattle.std.specs.List.{list_all};
ghost use Rattle.tm_plan_cases.specs.Collected.{owned};
ghost use Rattle.tm_plan_cases.specs.Shaped.{AreShaped};
ghost use Rattle.tm_report_run.specs.Report.{AreVerdicts, IsVerdictOf, case_lines, case_text, cases_lines};
ghost use Rattle.tm_report_run.specs.Report.{difference_line, dword_in, full_line, hart_lines, hart_text, place_text};
ghost use Rattle.tm_report_run.specs.Report.{report, verdict_lines};

use crate::numbers::Verdicts;
use std::alloc::Global;
use tm_base::{Bytes, NoMemory, Text, push_decimal, push_hex};
use tm_plan_cases::{Case, Cases};
use tm_plan_owned::owned_addr;

// Puts where the `i`-th saved dword of hart `h` is from.
#[tactic(auto, unfolding(crate::specs::Report::place_text))]
fn put_place(out: &mut Bytes, cases: &Cases, h: u32, i: u64) -> Result<(), NoMemory>
    requires shaped { AreShaped cases.now }
    requires hart { h < cases.now.harts }
    requires saved { i < 30 + length (owned cases.now h) }
    ensures { OnOk result (out.new ≡ out.old ++ place_text cases.now h i) }
{
    if i < 30 {
        out.push(b'x')?;
        return push_decimal(out, i + 1);
    }
    out.append(b"0x")?;
    push_hex(out, owned_addr(cases, h, i - 30), 8)
}

#[tactic(auto, unfolding(crate::specs::Report::case_text))]
fn put_case_text(out: &mut Bytes, c: usize, name: &[u8]) -> Result<(), NoMemory>
    ensures { OnOk result (out.new ≡ out.old ++ case_text c name.now) }
{
    out.append(b"case ")?;
    push_decimal(out, c as u64)?;
    out.push(b' ')?;
    out.append(name)?;
    out.append(b": ")
}

// The saved dword that a verdict of hart `h` names.
fn saved_dword(cases: &Cases, h: u32, verdict: u64) -> u64
    requires verdict { IsVerdictOf cases.now h verdict }
    requires some { 0 < verdict }
    ensures is { result ≡ dword_in verdict }
    ensures saved { result < 30 + length (owned cases.now h) }
{
    let _ = cases;
    let _ = h;
    verdict % 0x1_0000_0000 - 1
}

// Puts what a line says of hart `h` before the place.
#[tactic(auto, unfolding(crate::specs::Report::hart_text))]
fn put_hart_text(out: &mut Bytes, c: usize, name: &[u8], h: u32, pass: u64) -> Result<(), NoMemory>
    ensures { OnOk result (out.new ≡ out.old ++ hart_text c name.now h pass) }
{
    put_case_text(out, c, name)?;
    out.append(b"hart ")?;
    push_decimal(out, u64::from(h))?;
    out.append(b" pass ")?;
    push_decimal(out, pass)?;
    out.push(b' ')
}

// Puts the line of a verdict of hart `h` that isn't 0.
#[tactic(auto, unfolding(crate::specs::Report::difference_line))]
fn put_difference(
    out: &mut Bytes,
    cases: &Cases,
    c: usize,
    name: &[u8],
    h: u32,
    verdict: u64,
) -> Result<(), NoMemory>
    requires shaped { AreShaped cases.now }
    requires hart { h < cases.now.harts }
    requires verdict { IsVerdictOf cases.now h verdict }
    requires some { 0 < verdict }
    ensures { OnOk result (out.new ≡ out.old ++ difference_line cases.now c name.now h verdict) }
{
    put_hart_text(out, c, name, h, verdict / 0x1_0000_0000)?;
    put_place(out, cases, h, saved_dword(cases, h, verdict))?;
    out.push(b'\n')
}

// Puts the line of a verdict of hart `h`, if it isn't 0.
fn put_verdict(
    out: &mut Bytes,
    cases: &Cases,
    c: usize,
    name: &[u8],
    h: u32,
    verdict: u64,
) -> Result<(), NoMemory>
    requires shaped { AreShaped cases.now }
    requires hart { h < cases.now.harts }
    requires verdict { IsVerdictOf cases.now h verdict }
    ensures { OnOk result (out.new ≡ out.old ++ verdict_lines cases.now c name.now h verdict) }
{
    if verdict == 0 {
        return Ok(());
    }
    put_difference(out, cases, c, name, h, verdict)
}

// Puts the lines of all harts whose verdicts aren't 0.
fn put_harts(
    out: &mut Bytes,
    cases: &Cases,
    c: usize,
    name: &[u8],
    verdicts: &[u64],
) -> Result<(), NoMemory>
    requires shaped { AreShaped cases.now }
    requires harts { length verdicts.now ≡ cases.now.harts }
    requires verdicts { (h : ℕ) → h < cases.now.harts → IsVerdictOf cases.now h (slice_index verdicts.now h) }
    ensures { OnOk result (out.new ≡ out.old ++ hart_lines cases.now c name.now 0 verdicts.now) }
{
    for (h, verdict) in verdicts.iter().enumerate() {
        put_verdict(out, cases, c, name, h as u32, *verdict)?;
    }
    Ok(())
}

// Whether no verdict differs from 0.
fn are_zero(verdicts: &[u64]) -> bool
    ensures { result ≡ list_all (λ v. v == 0) verdicts.now }
{
    verdicts.iter().all(|verdict| *verdict == 0)
}

// Puts the lines of a case, by the verdicts of its harts.
#[tactic(auto, unfolding(crate::specs::Report::case_lines))]
fn put_case(
    out: &mut Bytes,
    cases: &Cases,
    c: usize,
    name: &[u8],
    verdicts: &[u64],
) -> Result<(), NoMemory>
    requires shaped { AreShaped cases.now }
    requires harts { length verdicts.now ≡ cases.now.harts }
    requires verdicts { (h : ℕ) → h < cases.now.harts → IsVerdictOf cases.now h (slice_index verdicts.now h) }
    ensures { OnOk result (out.new ≡ out.old ++ case_lines cases.now c name.now verdicts.now) }
{
    if are_zero(verdicts) {
        put_case_text(out, c, name)?;
        return out.append(b"ok\n");
    }
    put_harts(out, cases, c, name, verdicts)
}

// Puts the lines of all cases.
fn put_cases(out: &mut Bytes, cases: &Cases, verdicts: &[u64]) -> Result<(), NoMemory>
    requires shaped { AreShaped cases.now }
    requires count { length verdicts.now ≡ length cases.now.cases * cases.now.harts }
    requires verdicts { AreVerdicts cases.now verdicts.now }
    ensures { OnOk result (out.new ≡ out.old ++ cases_lines cases.now verdicts.now 0 cases.now.cases) }
{
    let harts = cases.harts as usize;
    for (c, case) in cases.cases.as_slice().iter().enumerate() {
        let first = c * harts;
        put_case(
            out,
            cases,
            c,
            case.name.as_slice(),
            &verdicts[first..first + harts],
        )?;
    }
    Ok(())
}

/// The report on a run of so many events, at whose end all harts are at halt: for each case that nothing differed, or
/// a line for each hart whose verdict isn't 0, with the least pass and the first place that differ from pass 0; and
/// the number of events.
///
/// There is one verdict for each case and hart. Each is 0, or `k * 2^32 + i + 1` for a pass `k` from 1 and a saved
/// dword `i` of its hart.
#[tactic(auto, unfolding(crate::specs::Report::report))]
pub fn report_text(
    alloc: Global,
    cases: &Cases,
    v: &Verdicts,
    events: u64,
) -> Result<Text, NoMemory>
    requires shaped { AreShaped cases.now }
    requires count { length v.now ≡ length cases.now.cases * cases.now.harts }
    requires verdicts { AreVerdicts cases.now v.now }
    ensures { IfOk result (λ text. text ≡ report cases.now v.now events) }
{
    let mut out = Bytes::new(alloc);
    put_cases(&mut out, cases, v.as_slice())?;
    out.append(b"events ")?;
    push_decimal(&mut out, events)?;
    out.push(b'\n')?;
    Ok(out)
}

/// The line on a run of so many events whose room is full, at whose end so many of the harts are at halt.
#[tactic(auto, unfolding(crate::specs::Report::full_line))]
pub fn full_text(alloc: Global, events: u64, halted: u32, harts: u32) -> Result<Text, NoMemory>
    ensures { IfOk result (λ text. text ≡ full_line events halted harts) }
{
    let mut out = Bytes::new(alloc);
    out.append(b"full: ")?;
    push_decimal(&mut out, events)?;
    out.append(b" events, ")?;
    push_decimal(&mut out, u64::from(halted))?;
    out.append(b" of ")?;
    push_decimal(&mut out, u64::from(harts))?;
    out.append(b" harts halted\n")?;
    Ok(out)
}
