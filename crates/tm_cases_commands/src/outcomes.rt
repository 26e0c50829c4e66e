// What a command did: what its sinks took, and the files afterwards.
ghost use Rattle.std.specs.Prelude.{◌≡◌, ◌≤◌, [], length, IfSome};

use sha2::{Digest, Sha256};
use tm_base::{Bytes, NoMemory, push_decimal, push_hex};
use tm_cases_book::{Book, Entry, State, put_text};
use tm_desk::{Desk, MemDesk};

/// No longer text is shown as it is.
const LONGEST_SHOWN: usize = 4096;

/// What a desk holds under a name, also where its next calls are ones that fail.
pub fn held(desk: &mut MemDesk, name: &str) -> Option<Bytes>
    ensures { IfSome result (λ file. length file ≤ 33554432) }
{
    for _ in 0..4 {
        if let Ok(file) = desk.read(name, 0x200_0000) {
            return Some(file);
        }
    }
    None
}

/// Appends how the files of a desk differ from those that it held.
pub fn put_files(
    state: &State,
    desk: &mut MemDesk,
    words: &[String],
    out: &mut Bytes,
) -> Result<(), NoMemory> {
    for file in state.held.entries() {
        let is = held(desk, file.name.as_str());
        put_change(&state.texts, file, is, out)?;
    }
    for word in words {
        put_new(state, desk, word, out)?;
        if let Some((_, value)) = word.split_once('=') {
            put_new(state, desk, value, out)?;
        }
    }
    Ok(())
}

/// Appends what a desk holds under a name that its files didn't have.
fn put_new(state: &State, desk: &mut MemDesk, name: &str, out: &mut Bytes) -> Result<(), NoMemory> {
    if is_held(state, name) {
        return Ok(());
    }
    match held(desk, name) {
        Some(file) => put_file(&state.texts, name, file.as_slice(), out),
        None => Ok(()),
    }
}

fn is_held(state: &State, name: &str) -> bool {
    for file in state.held.entries() {
        if file.name.as_str() == name {
            return true;
        }
    }
    false
}

fn put_change(
    texts: &Book,
    was: &Entry,
    is: Option<Bytes>,
    out: &mut Bytes,
) -> Result<(), NoMemory> {
    let name = was.name.as_str();
    match is {
        None => {
            out.append(b", ")?;
            out.append(name.as_bytes())?;
            out.append(b" is gone")
        }
        Some(file) => {
            if file.as_slice() == was.text.as_slice() {
                return Ok(());
            }
            put_file(texts, name, file.as_slice(), out)
        }
    }
}

/// Appends that a file holds a text, by its name where it has one.
fn put_file(texts: &Book, name: &str, file: &[u8], out: &mut Bytes) -> Result<(), NoMemory> {
    out.append(b", ")?;
    out.append(name.as_bytes())?;
    out.append(b" holds ")?;
    for entry in texts.entries() {
        if entry.text.as_slice() == file {
            return out.append(entry.name.as_str().as_bytes());
        }
    }
    push_decimal(out, file.len() as u64)?;
    out.append(b" bytes")
}

/// Appends what a sink took, if it took something.
pub fn put_taken(name: &[u8], taken: &[u8], out: &mut Bytes) -> Result<(), NoMemory>
    ensures { taken.now ≡ [] → out.new ≡ out.old }
{
    if taken.is_empty() {
        return Ok(());
    }
    out.append(name)?;
    put_shown(taken, out)
}

/// Appends bytes; of a long text its length and its digest.
pub fn put_shown(text: &[u8], out: &mut Bytes) -> Result<(), NoMemory> {
    if text.len() <= LONGEST_SHOWN {
        return put_text(out, text);
    }
    push_decimal(out, text.len() as u64)?;
    out.append(b" bytes of SHA-256 ")?;
    for byte in Sha256::digest(text) {
        push_hex(out, u64::from(byte), 2)?;
    }
    Ok(())
}
