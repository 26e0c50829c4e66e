// Whole commands, over a desk and sinks in memory.
use crate::demands::{ALL_PASSED, NONE_BEFORE, NONE_GAVE_UP, all_passed, none_before, put_demands};
use crate::gate::HoldingGate;
use std::alloc::Global;
use std::sync::Wait;
use std::thread::Threads;
use tm_base::{Bytes, List, NoMemory, push_decimal};
use tm_desk::{CalmSink, Gate, MemDesk, OpenGate};
use tm_image_build::Image;
use tm_plan_journal::Journal;
use tm_top::{Outcome, top};

/// How a command ended, and what it printed and told.
#[derive(Drop)]
struct CommandEnd {
    outcome: Outcome,
    printed: CalmSink,
    told: CalmSink,
}

/// The words between blanks.
fn words_of(alloc: Global, line: &str) -> Result<Vec<String>, NoMemory> {
    let mut words = Vec::new(alloc);
    for word in line.split(' ') {
        let word = String::from_str(alloc, word).map_err(|_| NoMemory)?;
        words.push(word).map_err(|_| NoMemory)?;
    }
    Ok(words)
}

/// Calls the whole program with the words of a line, on a desk that holds the image as `a.elf`.
fn ended<R: Threads + Wait + Sync, G: Gate>(
    rt: &R,
    alloc: Global,
    image: &Image,
    line: &str,
    gate: &G,
) -> Result<CommandEnd, NoMemory> {
    let words = words_of(alloc, line)?;
    let mut desk = MemDesk::new(alloc, List::new(alloc));
    desk.put_file("a.elf", image.file.as_slice())?;
    let mut printed = CalmSink::new(alloc);
    let mut told = CalmSink::new(alloc);
    let outcome = top(rt, alloc, &words, &mut desk, &mut printed, &mut told, gate);
    Ok(CommandEnd {
        outcome,
        printed,
        told,
    })
}

/// The line of a command, its status, and what it printed and told.
fn text_of(alloc: Global, line: &str, ended: &CommandEnd) -> Result<Bytes, NoMemory> {
    let mut out = Bytes::new(alloc);
    out.append(line.as_bytes())?;
    out.append(b"\nstatus ")?;
    push_decimal(&mut out, u64::from(ended.outcome.status))?;
    out.push(b'\n')?;
    match &ended.outcome.journal {
        Some(journal) => put_printed(alloc, ended.printed.taken(), journal, &mut out)?,
        None => out.append(ended.printed.taken())?,
    }
    out.append(ended.told.taken())?;
    Ok(out)
}

/// Appends what was printed. The number of events in a report is compared with the journal's alone, since it isn't the
/// same in each run.
fn put_printed(
    alloc: Global,
    printed: &[u8],
    journal: &Journal,
    out: &mut Bytes,
) -> Result<(), NoMemory> {
    let mut last = Bytes::new(alloc);
    last.append(b"events ")?;
    push_decimal(&mut last, journal.len())?;
    last.push(b'\n')?;
    match printed.strip_suffix(last.as_slice()) {
        Some(cases) => {
            out.append(cases)?;
            out.append(b"events: those of the journal\n")
        }
        None => out.append(printed),
    }
}

/// A command, where the gate is open, and what it did.
pub fn command<R: Threads + Wait + Sync>(
    rt: &R,
    alloc: Global,
    image: &Image,
    line: &str,
) -> Result<Bytes, NoMemory> {
    let ended = ended(rt, alloc, image, line, &OpenGate)?;
    text_of(alloc, line, &ended)
}

/// A run by threads through the holding gate, and what is demanded of it.
pub fn held<R: Threads + Wait + Sync>(
    rt: &R,
    alloc: Global,
    image: &Image,
    line: &str,
) -> Result<Bytes, NoMemory> {
    let gate = HoldingGate::new();
    let ended = ended(rt, alloc, image, line, &gate)?;
    let mut out = text_of(alloc, line, &ended)?;
    if let Some(journal) = &ended.outcome.journal {
        let passed = all_passed(&gate, image.program.cases.harts, journal);
        let hold = [!gate.gave_up(), passed, none_before(journal)];
        let demands = [NONE_GAVE_UP, ALL_PASSED, NONE_BEFORE];
        put_demands(&mut out, &demands, &hold)?;
    }
    Ok(out)
}
