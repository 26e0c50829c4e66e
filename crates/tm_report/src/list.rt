// The listing of a program.
ghost use Rattle.std.specs.Prelude.{◌≡◌, ◌++◌, ◌+◌, ◌<◌, ◌≤◌, ◌^◌, OnOk, IfOk, All, length};
ghost use Rattle.std.specs.Fmt.{decimal};
ghost use Rattle.tm_plan_cases.specs.Shaped.{AreShaped, IsProgram, IsShapedMask};
ghost use Rattle.tm_report.specs.Listing.{case_lines, cases_lines, hart_lines, harts_lines, head_line, listing};

use crate::dwords::put_bytes;
use crate::registers::put_unchecked;
use crate::slots::put_slots;
use std::alloc::Global;
use tm_base::{Bytes, NoMemory, Text, push_decimal};
use tm_plan_cases::{Case, CaseMask, Cases, Program, Stream};

// A name and a number, each behind its own words.
fn put_number(out: &mut Bytes, words: &[u8], number: u64) -> Result<(), NoMemory>
    ensures { OnOk result (out.new ≡ out.old ++ words.now ++ decimal number) }
{
    out.append(words)?;
    push_decimal(out, number)
}

#[tactic(auto, unfolding(crate::specs::Listing::hart_lines))]
fn put_hart(
    alloc: Global,
    out: &mut Bytes,
    h: u32,
    stream: &Stream,
    mask: u32,
) -> Result<(), NoMemory>
    ensures { OnOk result (out.new ≡ out.old ++ hart_lines h stream.now mask) }
{
    put_number(out, b"hart ", u64::from(h))?;
    put_number(out, b" slots ", stream.words.as_slice().len() as u64)?;
    out.push(b'\n')?;
    put_slots(out, stream.words.as_slice())?;
    put_unchecked(alloc, out, mask)
}

// Puts the lines of harts that are numbered from `h` on, each with its mask.
fn put_harts(
    alloc: Global,
    out: &mut Bytes,
    h: u32,
    streams: &[Stream],
    masks: &[u32],
) -> Result<(), NoMemory>
    requires { h + length streams.now < 2 ^ 32 }
    ensures { OnOk result (out.new ≡ out.old ++ harts_lines h streams.now masks.now) }
{
    let [stream, more_streams @ ..] = streams else {
        return Ok(());
    };
    let [mask, more_masks @ ..] = masks else {
        return Ok(());
    };
    put_hart(alloc, out, h, stream, *mask)?;
    put_harts(alloc, out, h + 1, more_streams, more_masks)
}

#[tactic(auto, unfolding(crate::specs::Listing::case_lines))]
fn put_case(
    alloc: Global,
    out: &mut Bytes,
    cases: &Cases,
    c: u32,
    case: &Case,
    mask: &CaseMask,
) -> Result<(), NoMemory>
    requires cases { AreShaped cases.now }
    requires streams { length case.now.streams ≡ cases.now.harts }
    requires mask { IsShapedMask cases.now mask.now }
    ensures { OnOk result (out.new ≡ out.old ++ case_lines cases.now c case.now mask.now) }
{
    put_number(out, b"case ", u64::from(c))?;
    out.push(b' ')?;
    out.append(case.name.as_slice())?;
    out.push(b'\n')?;
    put_harts(alloc, out, 0, case.streams.as_slice(), mask.regs.as_slice())?;
    put_bytes(alloc, out, cases, mask.bytes.as_slice())
}

// Puts the lines of cases that are numbered from `c` on, each with its mask.
fn put_cases(
    alloc: Global,
    out: &mut Bytes,
    all: &Cases,
    c: u32,
    cases: &[Case],
    masks: &[CaseMask],
) -> Result<(), NoMemory>
    requires few { c + length cases.now < 2 ^ 32 }
    requires shaped { AreShaped all.now }
    requires cases { All (λ case. length case.streams ≡ all.now.harts) cases.now }
    requires masks { All (IsShapedMask all.now) masks.now }
    ensures { OnOk result (out.new ≡ out.old ++ cases_lines all.now c cases.now masks.now) }
{
    let [case, more_cases @ ..] = cases else {
        return Ok(());
    };
    let [mask, more_masks @ ..] = masks else {
        return Ok(());
    };
    put_case(alloc, out, all, c, case, mask)?;
    put_cases(alloc, out, all, c + 1, more_cases, more_masks)
}

// Puts the first line.
#[tactic(auto, unfolding(crate::specs::Listing::head_line))]
fn put_head(out: &mut Bytes, program: &Program, seed: u64) -> Result<(), NoMemory>
    ensures { OnOk result (out.new ≡ out.old ++ head_line program.now seed) }
{
    let cases = &program.cases;
    out.append(b"template ")?;
    out.append(cases.name.as_slice())?;
    put_number(out, b" seed ", seed)?;
    put_number(out, b" harts ", u64::from(cases.harts))?;
    put_number(out, b" passes ", u64::from(cases.passes))?;
    put_number(out, b" cases ", cases.cases.as_slice().len() as u64)?;
    out.push(b'\n')
}

/// The listing of a program that was built with this seed: a line for the whole, and for each case its name, a line for
/// each slot of each hart (number, word and instruction), the registers of each hart that aren't checked, and the
/// dwords of the windows with a byte that isn't.
#[tactic(auto, unfolding(crate::specs::Listing::listing))]
pub fn list_text(alloc: Global, program: &Program, seed: u64) -> Result<Text, NoMemory>
    requires { IsProgram program.now }
    ensures { IfOk result (λ text. text ≡ listing program.now seed) }
{
    let mut out = Bytes::new(alloc);
    put_head(&mut out, program, seed)?;
    put_cases(
        alloc,
        &mut out,
        &program.cases,
        0,
        program.cases.cases.as_slice(),
        program.masks.cases.as_slice(),
    )?;
    Ok(out)
}
