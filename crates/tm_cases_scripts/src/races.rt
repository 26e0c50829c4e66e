// What of a test is checked.
use crate::drawn::drawn;
use tm_base::{Bytes, NoMemory, push_decimal};
use tm_cases_book::{State, put};
use tm_plan_cases::CaseMask;
use tm_race::track;

/// For each case the word of each hart's registers, bit r for x r, and where the checked bytes stand from the first
/// window on: each range with its first place and the one behind its last.
pub fn race(state: &State, rest: &str, out: &mut Bytes) -> Result<(), NoMemory> {
    let Some(cases) = drawn(state, rest) else {
        return out.append(b"no test");
    };
    let masks = track(state.alloc, &cases)?;
    for mask in masks.cases.as_slice() {
        put_mask(state, mask, out)?;
    }
    out.append(b"end")
}

fn put_mask(state: &State, mask: &CaseMask, out: &mut Bytes) -> Result<(), NoMemory> {
    out.append(b"registers")?;
    for word in mask.regs.as_slice() {
        put(out, format!(in state.alloc; " {word:#x}"))?;
    }
    out.append(b", bytes")?;
    put_ranges(mask.bytes.as_slice(), out)?;
    out.append(b", ")
}

fn put_ranges(bytes: &[u8], out: &mut Bytes) -> Result<(), NoMemory> {
    let mut inside = false;
    for (place, byte) in bytes.iter().enumerate() {
        let is_checked = *byte != 0;
        if is_checked && !inside {
            out.push(b' ')?;
            push_decimal(out, place as u64)?;
        }
        if inside && !is_checked {
            put_end(place, out)?;
        }
        inside = is_checked;
    }
    if inside {
        put_end(bytes.len(), out)?;
    }
    Ok(())
}

fn put_end(place: usize, out: &mut Bytes) -> Result<(), NoMemory> {
    out.append(b"..")?;
    push_decimal(out, place as u64)
}
