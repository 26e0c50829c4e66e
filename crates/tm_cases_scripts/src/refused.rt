// How the faults of scripts and traces are shown.
use std::alloc::Global;
use tm_base::{Bytes, NoMemory, Pos, push_decimal, push_pos};
use tm_cases_book::put;
use tm_fault::FaultScriptFault;
use tm_lex::LexFault;
use tm_trace::TraceFault;

fn put_place(out: &mut Bytes, name: &[u8], pos: Pos) -> Result<(), NoMemory> {
    out.append(name)?;
    out.push(b' ')?;
    push_pos(out, pos)
}

fn put_number(out: &mut Bytes, name: &[u8], number: u64) -> Result<(), NoMemory> {
    out.append(name)?;
    out.push(b' ')?;
    push_decimal(out, number)
}

fn put_lex(fault: LexFault, out: &mut Bytes) -> Result<(), NoMemory> {
    match fault {
        LexFault::BadByte { pos, byte } => {
            put_place(out, b"BadByte", pos)?;
            put_number(out, b"", u64::from(byte))
        }
        LexFault::LongWord { pos } => put_place(out, b"LongWord", pos),
        LexFault::NoMemory => out.append(b"NoMemory"),
    }
}

/// Appends the fault of a script: its name, its place, and what was wanted there or stands there.
pub fn put_script(alloc: Global, fault: FaultScriptFault, out: &mut Bytes) -> Result<(), NoMemory> {
    match fault {
        FaultScriptFault::Lex(fault) => put_lex(fault, out),
        FaultScriptFault::Expected { pos, what } => {
            put_place(out, b"Expected", pos)?;
            put(out, format!(in alloc; " {what:?}"))
        }
        FaultScriptFault::OutOfRange { pos, value } => {
            put_place(out, b"OutOfRange", pos)?;
            put_number(out, b"", value)
        }
        FaultScriptFault::NoEffect { pos } => put_place(out, b"NoEffect", pos),
        FaultScriptFault::Twice { pos } => put_place(out, b"Twice", pos),
        FaultScriptFault::NoMemory => out.append(b"NoMemory"),
    }
}

/// Appends the fault of a trace: its name and its line.
pub fn put_trace(fault: TraceFault, out: &mut Bytes) -> Result<(), NoMemory> {
    match fault {
        TraceFault::Expected { line } => put_number(out, b"Expected", u64::from(line)),
        TraceFault::OutOfRange { line } => put_number(out, b"OutOfRange", u64::from(line)),
        TraceFault::Early { line } => put_number(out, b"Early", u64::from(line)),
        TraceFault::NoMemory => out.append(b"NoMemory"),
    }
}
