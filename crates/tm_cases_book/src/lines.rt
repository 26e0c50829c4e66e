// A file of cases, line by line.
use crate::book::Book;
use crate::change::changed;
use crate::form::has_form;
use crate::state::State;
use crate::words::small;
use std::str;
use tm_base::{Bytes, NoMemory};

/// The kinds of case that a program answers.
pub trait Kinds {
    /// The form of what stands behind the word of a kind, if there is the kind. It has a letter for each word: `n` a
    /// number, `o` a number or nothing, `t` a text by its name, `w` any word. A capital is all that is left: `X` a
    /// text, `C` changes, `S` settings, `O` settings, a colon and a text.
    fn form(&self, kind: &str) -> Option<&'static str>;

    /// Appends what the call of a case answers, whose line is a kind and the rest behind it.
    fn answer(
        &self,
        state: &mut State,
        kind: &str,
        rest: &str,
        out: &mut Bytes,
    ) -> Result<(), NoMemory>;
}

/// The answers of a file, each behind its case.
pub fn answers<K: Kinds>(state: &mut State, kinds: &K, file: &[u8]) -> Result<Bytes, NoMemory> {
    let mut out = Bytes::new(state.alloc);
    let Ok(text) = str::from_utf8(file) else {
        return Ok(out);
    };
    for line in text.lines() {
        if !line.is_empty() && !line.starts_with('#') {
            put_line(state, kinds, line, &mut out)?;
        }
    }
    Ok(out)
}

fn put_line<K: Kinds>(
    state: &mut State,
    kinds: &K,
    line: &str,
    out: &mut Bytes,
) -> Result<(), NoMemory> {
    let (kind, rest) = line.split_once(' ').unwrap_or((line, ""));
    let form = form_of_set(kind).or(kinds.form(kind));
    if !form.is_some_and(|form| has_form(&state.texts, form, rest)) {
        state.failed = true;
        out.append(line.as_bytes())?;
        return out.append(b"\n  not a case\n");
    }
    if set(state, kind, rest)? {
        return Ok(());
    }
    out.append(line.as_bytes())?;
    out.append(b"\n  ")?;
    kinds.answer(state, kind, rest, out)?;
    out.append(b"\n")
}

/// The form of what stands behind the word of a line that sets something.
fn form_of_set(kind: &str) -> Option<&'static str> {
    match kind {
        "let" | "hold" => Some("wX"),
        "times" => Some("wnX"),
        "change" => Some("wtC"),
        "drop" => Some(""),
        _ => None,
    }
}

/// Whether the line sets something, and then it is done.
fn set(state: &mut State, kind: &str, rest: &str) -> Result<bool, NoMemory> {
    let (name, text) = rest.split_once(' ').unwrap_or((rest, ""));
    match kind {
        "let" => {
            let text = state.texts.read(text)?;
            state.texts.put(name, text)?;
        }
        "times" => times(state, name, text)?,
        "change" => change(state, name, text)?,
        "hold" => {
            let text = state.texts.read(text)?;
            state.held.put(name, text)?;
        }
        "drop" => state.held = Book::new(state.alloc),
        _ => return Ok(false),
    }
    Ok(true)
}

/// A text that repeats another.
fn times(state: &mut State, name: &str, rest: &str) -> Result<(), NoMemory> {
    let (count, text) = rest.split_once(' ').unwrap_or((rest, ""));
    let text = state.texts.read(text)?;
    let mut all = Bytes::new(state.alloc);
    for _ in 0..small(count) {
        all.append(text.as_slice())?;
    }
    state.texts.put(name, all)
}

/// A text that differs from another in some places.
fn change(state: &mut State, name: &str, rest: &str) -> Result<(), NoMemory> {
    let (old, changes) = rest.split_once(' ').unwrap_or((rest, ""));
    let text = changed(state.alloc, state.texts.find(old), changes)?;
    state.texts.put(name, text)
}
