// Desks and sinks in memory, call by call.
use std::alloc::Global;
use tm_base::{Bytes, NoMemory, push_decimal};
use tm_cases_book::{State, calls, number, option, put, put_text, small, words_of};
use tm_desk::{CalmDesk, CalmSink, Desk, MemSink, Sink, put_all};

/// Calls of a desk in memory that holds the files, `OPTIONS: CALL; CALL`, with the calls `read NAME MAX` and `write
/// NAME TEXT`; of one that never fails where the options have `calm=1`.
pub fn desk(state: &State, rest: &str, out: &mut Bytes) -> Result<(), NoMemory> {
    let (options, ops) = rest.split_once(": ").unwrap_or(("", rest));
    if option(options, "calm") == "1" {
        let mut desk = CalmDesk::new(state.alloc);
        for file in state.held.entries() {
            desk.put_file(file.name.as_str(), file.text.as_slice())?;
        }
        return desk_calls(state, &mut desk, ops, out);
    }
    let mut desk = state.desk(options)?;
    desk_calls(state, &mut desk, ops, out)
}

fn desk_calls<D: Desk>(
    state: &State,
    desk: &mut D,
    ops: &str,
    out: &mut Bytes,
) -> Result<(), NoMemory> {
    for op in ops.split(';') {
        let [name, file, text, ..] = words_of(op.trim_start());
        if name == "read" {
            put_read(state.alloc, desk, file, number(text), out)?;
        } else {
            let text = state.texts.read(text)?;
            put_written(state.alloc, desk, file, text.as_slice(), out)?;
        }
    }
    out.append(b"end")
}

fn put_read<D: Desk>(
    alloc: Global,
    desk: &mut D,
    name: &str,
    max: u64,
    out: &mut Bytes,
) -> Result<(), NoMemory> {
    match desk.read(name, max) {
        Ok(file) => {
            out.append(b"holds ")?;
            put_text(out, file.as_slice())?;
        }
        Err(fault) => put(out, format!(in alloc; "{fault:?}"))?,
    }
    out.append(b"; ")
}

fn put_written<D: Desk>(
    alloc: Global,
    desk: &mut D,
    name: &str,
    text: &[u8],
    out: &mut Bytes,
) -> Result<(), NoMemory> {
    match desk.write(name, text) {
        Ok(()) => out.append(b"written")?,
        Err(fault) => put(out, format!(in alloc; "{fault:?}"))?,
    }
    out.append(b"; ")
}

/// Puts into a sink in memory, `OPTIONS: PUT; PUT`, with `put TEXT` for one put and `all TEXT` for as many as it
/// takes; into one that never fails where the options have `calm=1`.
pub fn sink(state: &State, rest: &str, out: &mut Bytes) -> Result<(), NoMemory> {
    let (options, ops) = rest.split_once(": ").unwrap_or(("", rest));
    if option(options, "calm") == "1" {
        let mut sink = CalmSink::new(state.alloc);
        sink_calls(state, &mut sink, ops, out)?;
        return put_text(out, sink.taken());
    }
    let most = u64::from(small(option(options, "most"))).max(1);
    let mut sink = MemSink::new(state.alloc, most, calls(state.alloc, options, "out")?);
    sink_calls(state, &mut sink, ops, out)?;
    put_text(out, sink.taken())
}

fn sink_calls<S: Sink>(
    state: &State,
    sink: &mut S,
    ops: &str,
    out: &mut Bytes,
) -> Result<(), NoMemory> {
    for op in ops.split(';') {
        let [name, text, ..] = words_of(op.trim_start());
        let text = state.texts.read(text)?;
        if name == "all" {
            put_whole(state.alloc, sink, text.as_slice(), out)?;
        } else {
            put_once(state.alloc, sink, text.as_slice(), out)?;
        }
    }
    out.append(b"taken ")
}

fn put_whole<S: Sink>(
    alloc: Global,
    sink: &mut S,
    text: &[u8],
    out: &mut Bytes,
) -> Result<(), NoMemory> {
    match put_all(sink, text) {
        Ok(()) => out.append(b"all")?,
        Err(fault) => put(out, format!(in alloc; "{fault:?}"))?,
    }
    out.append(b"; ")
}

fn put_once<S: Sink>(
    alloc: Global,
    sink: &mut S,
    text: &[u8],
    out: &mut Bytes,
) -> Result<(), NoMemory> {
    match sink.put(text) {
        Ok(count) => push_decimal(out, count)?,
        Err(fault) => put(out, format!(in alloc; "{fault:?}"))?,
    }
    out.append(b"; ")
}
