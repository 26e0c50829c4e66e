//! Prints words of the program of a small test, which two harts run with one slot each. What it has to print follows
//! from RV64I 2.2 and 2.5, from the marks of a hart's text, and from where the text begins.
#![tactic(auto)]

ghost use Rattle.std.specs.Prelude.{◌<◌, IfSome};
ghost use Rattle.tm_plan_cases.specs.Shaped.{AreShaped};

use std::alloc::Global;
use std::io;
use tm_gen::streams;
use tm_pass::{HartCode, ProgramText, hart_code, program_text};
use tm_plan_cases::Cases;
use tm_rules::admit;
use tm_tmpl_read::parse_template;
use tm_topo::parse_topology;

const TOPOLOGY: &str = "cores = 2\nthreads = 1\nline = 64\n";

const TEMPLATE: &str =
    "template t\npasses 2\nwindow 0 true 1\ncase a\nbody all\nemit addi x1, x0, 1\n";

/// Where the text begins.
const TEXT: u64 = 0x8000_0000;

/// Where the second hart's code begins in another text.
const LATER: u64 = 0x8000_1000;

/// The cases of the test, which has two harts.
fn two_harts(alloc: Global) -> Option<Cases>
    ensures shaped { IfSome result AreShaped }
    ensures harts { IfSome result (λ all. 1 < all.harts) }
{
    let Ok(t) = parse_template(alloc, TEMPLATE.as_bytes()) else {
        return None;
    };
    let Ok(topo) = parse_topology(alloc, TOPOLOGY.as_bytes()) else {
        return None;
    };
    let Ok(a) = admit(alloc, &t, &topo) else {
        return None;
    };
    let Ok(cases) = streams(alloc, &a, 1) else {
        return None;
    };
    if cases.harts != 2 {
        return None;
    }
    Some(cases)
}

/// Prints the words at some addresses of a text that begins at another.
fn show(
    rt: &HostRuntime,
    what: &str,
    text: &[u32],
    base: u64,
    addresses: &[u64],
) -> io::Result<()> {
    for address in addresses {
        match text.get((address.wrapping_sub(base) / 4) as usize) {
            Some(word) => println!(rt; "{what}: {word:#010x}")?,
            None => println!(rt; "{what}: no word")?,
        }
    }
    Ok(())
}

/// The first word of all, and the words at the starts of streams and at exit marks.
fn show_text(rt: &HostRuntime, made: &ProgramText) -> io::Result<()> {
    let text = made.text.as_slice();
    show(rt, "first, addi x1, x0, 0", text, TEXT, &[TEXT])?;
    let starts = made.marks.starts.as_slice();
    show(rt, "start, addi x1, x0, 1", text, TEXT, starts)?;
    let exits = made.marks.exits.as_slice();
    show(rt, "exit, jalr x0, 0(x1)", text, TEXT, exits)
}

/// The first word of the second hart, and the word at its halt mark.
fn show_second(rt: &HostRuntime, code: &HartCode) -> io::Result<()> {
    let words = code.words.as_slice();
    show(rt, "first, addi x1, x0, 1", words, LATER, &[LATER])?;
    show(rt, "halt, jal x0, 0", words, LATER, &[code.halt])
}

/// The second hart's code, in another text.
#[tactic(auto, unfolding(tm_plan_map::specs::Map::text_base, tm_plan_map::specs::Map::tables_base))]
fn second(alloc: Global, cases: &Cases) -> Option<HartCode>
    requires shaped { AreShaped cases.now }
    requires second { 1 < cases.now.harts }
{
    hart_code(alloc, cases, 1, LATER).ok()
}

/// The text of both harts, and the second hart's code.
fn words(alloc: Global) -> Option<(ProgramText, HartCode)> {
    let cases = two_harts(alloc)?;
    let text = program_text(alloc, &cases).ok()?;
    let code = second(alloc, &cases)?;
    Some((text, code))
}

fn main(rt: HostRuntime) -> io::Result<()> {
    let Some((text, code)) = words(rt.alloc()) else {
        return println!(rt; "nothing");
    };
    println!(rt; "the text of two harts")?;
    show_text(&rt, &text)?;
    println!(rt; "the second hart's code")?;
    show_second(&rt, &code)
}
