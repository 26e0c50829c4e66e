// Texts that differ from others in some bytes.
use crate::words::{number, small};
use std::alloc::Global;
use tm_base::{Bytes, NoMemory};

/// A text with changes: `AT=BYTE` another byte at a place, `cut=LEN` the first bytes alone, `more=BYTE` one byte more.
pub fn changed(alloc: Global, old: &[u8], changes: &str) -> Result<Bytes, NoMemory> {
    let mut text = Bytes::new(alloc);
    text.append(old)?;
    for change in changes.split(' ') {
        text = changed_once(alloc, text.as_slice(), change)?;
    }
    Ok(text)
}

fn changed_once(alloc: Global, text: &[u8], change: &str) -> Result<Bytes, NoMemory> {
    let mut out = Bytes::new(alloc);
    let (place, value) = change.split_once('=').unwrap_or(("cut", "0xffffffff"));
    let byte = (small(value) % 256) as u8;
    match place {
        "cut" => out.append(text.get(..small(value) as usize).unwrap_or(text))?,
        "more" => {
            out.append(text)?;
            out.push(byte)?;
        }
        _ => {
            let at = number(place) as usize;
            out.append(text.get(..at).unwrap_or(text))?;
            out.push(byte)?;
            out.append(text.get(at.saturating_add(1)..).unwrap_or(b""))?;
        }
    }
    Ok(out)
}
