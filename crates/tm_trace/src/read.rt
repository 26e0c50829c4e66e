// The text of a trace, read.
ghost use Rattle.std.specs.Prelude.{◌≡◌, ◌≢◌, ◌==◌, ◌+◌, ◌*◌, ◌/◌, ◌≤◌, ◌<◌, ◌^◌, [], Ok, Err, IfOk, IfErr, true};
ghost use Rattle.std.specs.Prelude.{length, min};
ghost use Rattle.std.specs.List.{list_any};
ghost use Rattle.tm_trace.specs.Reading as reading;
ghost use Rattle.tm_trace.specs.Traced.{IsTrace};

use crate::fields::word_at;
use crate::line::{LEAST_LINE, Line, Place, Touch, head_at, line_at};
use crate::trace::{Trace, TraceFault};
use std::alloc::Global;
use tm_base::{HART_ROOM, MOST_EVENTS};
use tm_plan_cases::Event;
use tm_plan_journal::Journal;
use tm_table::Access;

fn is_placed(place: Place) -> bool
    ensures { result ≡ reading.is_placed place }
{
    match place.width {
        1 => place.value < 0x100,
        2 => place.addr % 2 == 0 && place.value < 0x1_0000,
        4 => place.addr % 4 == 0 && place.value < 0x1_0000_0000,
        8 => place.addr % 8 == 0,
        _ => false,
    }
}

fn has_place(touch: Touch) -> bool
    ensures { result ≡ reading.has_place touch }
{
    match touch {
        Touch::Nothing => true,
        Touch::Reads(place) | Touch::Writes(place) => is_placed(place),
    }
}

// Whether a line is of one of so many harts, and its access has its place.
fn is_in_range(harts: u32, line: Line) -> bool
    ensures { result ≡ reading.is_in_range harts line }
{
    line.hart < harts && has_place(line.touch)
}

// The access that a line tells.
fn access_of(touch: Touch) -> Access
    requires { reading.has_place touch ≡ true }
    ensures { result ≡ reading.access_of touch }
{
    match touch {
        Touch::Nothing => Access::Quiet,
        Touch::Reads(place) => Access::Read {
            addr: place.addr,
            width: place.width as u8,
            value: place.value,
        },
        Touch::Writes(place) => Access::Write {
            addr: place.addr,
            width: place.width as u8,
            value: place.value,
        },
    }
}

// Whether some line ends in bytes.
fn has_end(bytes: &[u8]) -> bool
    ensures { result ≡ list_any (λ b. b == 10) bytes.now }
{
    bytes.iter().any(|byte| *byte == b'\n')
}

// The fault of a line that isn't of its form.
#[tactic(auto, unfolding(crate::specs::Reading::line_fault))]
fn line_fault(bytes: &[u8], line: u32) -> TraceFault
    ensures { result ≡ reading.line_fault line bytes.now }
{
    if has_end(bytes) {
        TraceFault::Expected { line }
    } else {
        TraceFault::Early { line }
    }
}

// The event of the next line.
#[tactic(auto, unfolding(crate::specs::Reading::next_event))]
fn next_event(bytes: &[u8], harts: u32, line: u32) -> Result<(Event, &[u8]), TraceFault>
    ensures is { reading.IsRead (reading.next_event harts line bytes.now) result }
    ensures less { IfOk result (λ r. LEAST_LINE + length r.1.now ≤ length bytes.now) }
{
    let Some((said, rest)) = line_at(bytes) else {
        return Err(line_fault(bytes, line));
    };
    if !is_in_range(harts, said) {
        return Err(TraceFault::OutOfRange { line });
    }
    let event = Event {
        hart: said.hart,
        pc: said.pc,
        word: said.word,
        access: access_of(said.touch),
    };
    Ok((event, rest))
}

// The events of so many lines from the second on.
fn read_events<'a>(
    journal: &mut Journal,
    bytes: &'a [u8],
    harts: u32,
    count: u32,
) -> Result<&'a [u8], TraceFault>
    requires none { journal.old.events ≡ [] }
    requires room { min count (length bytes.now / LEAST_LINE) ≤ journal.old.room }
    requires few { count + 2 < 2 ^ 32 }
    ensures ok { IfOk result (λ rest. reading.events_from count harts 2 bytes.now ≡ Ok (journal.new.events, rest.now)) }
    ensures err { IfErr result (λ e. reading.events_from count harts 2 bytes.now ≡ Err e) }
    ensures room { journal.new.room ≡ journal.old.room }
{
    let mut rest = bytes;
    for place in 0..count {
        let (event, behind) = next_event(rest, harts, place + 2)?;
        journal.put(event);
        rest = behind;
    }
    Ok(rest)
}

// That the last line stands there, and nothing behind it.
#[tactic(auto, unfolding(crate::specs::Reading::ending))]
fn read_end(bytes: &[u8], line: u32) -> Result<(), TraceFault>
    requires { line + 1 < 2 ^ 32 }
    ensures { result ≡ reading.ending line bytes.now }
{
    let Some(rest) = word_at(bytes, b"end\n") else {
        return Err(line_fault(bytes, line));
    };
    if rest.is_empty() {
        return Ok(());
    }
    Err(TraceFault::Expected { line: line + 1 })
}

fn is_head(harts: u32, events: u32) -> bool
    ensures { result ≡ reading.is_head harts events }
{
    1 <= harts && harts <= HART_ROOM && u64::from(events) <= MOST_EVENTS
}

// Room for so many events, but for no more than these bytes have lines. A first line that tells of more events than
// stand there takes no memory for them.
fn journal_of(alloc: Global, events: u32, bytes: &[u8]) -> Result<Journal, TraceFault>
    ensures ok { IfOk result (λ j. j ≡ record { events = []; room = min events (length bytes.now / LEAST_LINE) }) }
    ensures err { IfErr result (λ e. e ≡ TraceFault.NoMemory) }
{
    let room = u64::from(events).min(bytes.len() as u64 / LEAST_LINE);
    match Journal::start(alloc, room) {
        Ok(journal) => Ok(journal),
        Err(_) => Err(TraceFault::NoMemory),
    }
}

// The trace of so many harts and events behind the first line.
#[tactic(auto, using(crate::proofs::Ranged::is_trace))]
fn read_behind(alloc: Global, bytes: &[u8], harts: u32, events: u32) -> Result<Trace, TraceFault>
    requires { reading.is_head harts events ≡ true }
    ensures ok { IfOk result (λ t. reading.whole harts (events + 2) (reading.events_from events harts 2 bytes.now)
        ≡ Ok (t.harts, t.events.events)) }
    ensures is { IfOk result (λ t. IsTrace t.harts t.events.events) }
    ensures err { IfErr result (λ e. e ≢ TraceFault.NoMemory
        → reading.whole harts (events + 2) (reading.events_from events harts 2 bytes.now) ≡ Err e) }
    ensures small { IfOk result (λ t. t.events.room * LEAST_LINE ≤ length bytes.now) }
{
    let mut journal = journal_of(alloc, events, bytes)?;
    let rest = read_events(&mut journal, bytes, harts, events)?;
    match read_end(rest, events + 2) {
        Ok(()) => Ok(Trace {
            harts,
            events: journal,
        }),
        Err(fault) => Err(fault),
    }
}

/// The trace that a text is, or its first fault. The room of its events is no more than the text has lines for.
#[tactic(auto, unfolding(crate::specs::Reading::trace_of))]
pub fn read_trace(alloc: Global, bytes: &[u8]) -> Result<Trace, TraceFault>
    ensures ok { IfOk result (λ t. reading.trace_of bytes.now ≡ Ok (t.harts, t.events.events)) }
    ensures is { IfOk result (λ t. IsTrace t.harts t.events.events) }
    ensures err { IfErr result (λ e. e ≢ TraceFault.NoMemory → reading.trace_of bytes.now ≡ Err e) }
    ensures small { IfOk result (λ t. t.events.room * LEAST_LINE ≤ length bytes.now) }
{
    let Some(((harts, events), rest)) = head_at(bytes) else {
        return Err(line_fault(bytes, 1));
    };
    if !is_head(harts, events) {
        return Err(TraceFault::OutOfRange { line: 1 });
    }
    read_behind(alloc, rest, harts, events)
}
