// Traces, read and written again.
use crate::refused;
use std::alloc::Global;
use tm_base::{Bytes, NoMemory, push_decimal};
use tm_cases_book::{State, put, put_text};
use tm_plan_cases::Event;
use tm_plan_journal::Journal;
use tm_table::Access;
use tm_trace::{Trace, read_trace, write_trace};

/// How many harts and events a trace has, the first event and the last, and whether it is written as it was read; or
/// the fault of the text.
pub fn trace(state: &State, rest: &str, out: &mut Bytes) -> Result<(), NoMemory> {
    let text = state.texts.read(rest)?;
    match read_trace(state.alloc, text.as_slice()) {
        Ok(read) => {
            put_counts(&read, out)?;
            put_ends(state.alloc, &read.events, out)?;
            put_again(
                write_trace(state.alloc, read.harts, &read.events)?.as_slice(),
                text.as_slice(),
                out,
            )
        }
        Err(fault) => refused::put_trace(fault, out),
    }
}

fn put_counts(read: &Trace, out: &mut Bytes) -> Result<(), NoMemory> {
    out.append(b"harts ")?;
    push_decimal(out, u64::from(read.harts))?;
    out.append(b" events ")?;
    push_decimal(out, read.events.len())
}

// The first event and the last, where there are events.
fn put_ends(alloc: Global, events: &Journal, out: &mut Bytes) -> Result<(), NoMemory> {
    let count = events.len();
    if count == 0 {
        return Ok(());
    }
    out.append(b", first")?;
    put_event(alloc, events.at(0), out)?;
    out.append(b", last")?;
    put_event(alloc, events.at(count - 1), out)
}

fn put_event(alloc: Global, event: Event, out: &mut Bytes) -> Result<(), NoMemory> {
    out.append(b" hart ")?;
    push_decimal(out, u64::from(event.hart))?;
    put(
        out,
        format!(in alloc; " pc {:#x} word {:#x}", event.pc, event.word),
    )?;
    match event.access {
        Access::Quiet => Ok(()),
        Access::Read { addr, width, value } => {
            put(
                out,
                format!(in alloc; " reads {width} at {addr:#x}: {value:#x}"),
            )
        }
        Access::Write { addr, width, value } => {
            put(
                out,
                format!(in alloc; " writes {width} at {addr:#x}: {value:#x}"),
            )
        }
    }
}

// What a trace is written as, where that isn't the text that was read.
fn put_again(written: &[u8], read: &[u8], out: &mut Bytes) -> Result<(), NoMemory> {
    if written == read {
        return out.append(b", the same");
    }
    out.append(b", written ")?;
    put_text(out, written)
}
