// The text of a trace, written.
ghost use Rattle.std.specs.Prelude.{◌≡◌, ◌++◌, OnOk, IfOk};
ghost use Rattle.tm_trace.specs.Text.{access_text, event_text, events_text, head_text, place_text, trace_text};
ghost use Rattle.tm_trace.specs.Traced.{IsTrace};

use std::alloc::Global;
use tm_base::{Bytes, NoMemory, push_decimal, push_hex};
use tm_plan_cases::Event;
use tm_plan_journal::Journal;
use tm_table::Access;

// Puts where an access reads or writes, and what.
#[tactic(auto, unfolding(crate::specs::Text::place_text))]
fn put_place(out: &mut Bytes, addr: u64, width: u8, value: u64) -> Result<(), NoMemory>
    ensures { OnOk result (out.new ≡ out.old ++ place_text addr width value) }
{
    push_hex(out, addr, 16)?;
    out.push(b' ')?;
    push_decimal(out, u64::from(width))?;
    out.push(b' ')?;
    push_hex(out, value, 16)
}

// Puts an access, if any.
fn put_access(out: &mut Bytes, access: Access) -> Result<(), NoMemory>
    ensures { OnOk result (out.new ≡ out.old ++ access_text access) }
{
    match access {
        Access::Quiet => out.push(b'-'),
        Access::Read { addr, width, value } => {
            out.append(b"r ")?;
            put_place(out, addr, width, value)
        }
        Access::Write { addr, width, value } => {
            out.append(b"w ")?;
            put_place(out, addr, width, value)
        }
    }
}

// Puts the line of an event.
#[tactic(auto, unfolding(crate::specs::Text::event_text))]
fn put_event(out: &mut Bytes, event: Event) -> Result<(), NoMemory>
    ensures { OnOk result (out.new ≡ out.old ++ event_text event) }
{
    push_decimal(out, u64::from(event.hart))?;
    out.push(b' ')?;
    push_hex(out, event.pc, 16)?;
    out.push(b' ')?;
    push_hex(out, u64::from(event.word), 8)?;
    out.push(b' ')?;
    put_access(out, event.access)?;
    out.push(b'\n')
}

// Puts the lines of all events, in order.
fn put_events(out: &mut Bytes, journal: &Journal) -> Result<(), NoMemory>
    ensures { OnOk result (out.new ≡ out.old ++ events_text journal.now.events) }
{
    for place in 0..journal.len() {
        put_event(out, journal.at(place))?;
    }
    Ok(())
}

// Puts the first line.
#[tactic(auto, unfolding(crate::specs::Text::head_text))]
fn put_head(out: &mut Bytes, harts: u32, events: u64) -> Result<(), NoMemory>
    ensures { OnOk result (out.new ≡ out.old ++ head_text harts events) }
{
    out.append(b"trace 1 harts ")?;
    push_decimal(out, u64::from(harts))?;
    out.append(b" events ")?;
    push_decimal(out, events)?;
    out.push(b'\n')
}

/// The text of a journal's events, of so many harts: exactly the stated one, see docs/formats.md.
///
/// Each event is of one of the harts, and its access is aligned, with a value that its width holds.
#[tactic(auto, unfolding(crate::specs::Text::trace_text))]
pub fn write_trace(alloc: Global, harts: u32, journal: &Journal) -> Result<Bytes, NoMemory>
    requires { IsTrace harts journal.now.events }
    ensures { IfOk result (λ text. text ≡ trace_text harts journal.now.events) }
{
    let mut out = Bytes::new(alloc);
    put_head(&mut out, harts, journal.len())?;
    put_events(&mut out, journal)?;
    out.append(b"end\n")?;
    Ok(out)
}
