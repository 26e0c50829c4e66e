// Whole commands over desks and sinks in memory.
use crate::outcomes::{held, put_files, put_shown, put_taken};
use std::alloc::Global;
use std::str;
use tm_base::{Bytes, NoMemory, push_decimal};
use tm_cases_book::{State, calls, option, small, words_of};
use tm_desk::{MemDesk, MemSink};
use tm_top::still;

/// A command, `OPTIONS: WORDS`, over the held files: `desk=`, `out=` and `err=` have the numbers of the calls that
/// fail, `most=` how many bytes a put takes.
pub fn command(state: &State, rest: &str, out: &mut Bytes) -> Result<(), NoMemory> {
    let _ = done(state, rest, out)?;
    Ok(())
}

/// A command, behind the name of a text and that of a file: what the file holds afterwards is put under the name.
pub fn keep(state: &mut State, rest: &str, out: &mut Bytes) -> Result<(), NoMemory> {
    let (name, rest) = rest.split_once(' ').unwrap_or((rest, ""));
    let (file, rest) = rest.split_once(' ').unwrap_or((rest, ""));
    let mut desk = done(state, rest, out)?;
    match held(&mut desk, file) {
        Some(file) => state.texts.put(name, file),
        None => Ok(()),
    }
}

/// Does a command, appends what it did, and gives its desk.
fn done(state: &State, rest: &str, out: &mut Bytes) -> Result<MemDesk, NoMemory> {
    let (options, words) = rest.split_once(": ").unwrap_or(("", rest));
    let words = command_words(state, words)?;
    let mut desk = state.desk(options)?;
    put_call(state.alloc, options, words.as_slice(), &mut desk, out)?;
    put_files(state, &mut desk, words.as_slice(), out)?;
    Ok(desk)
}

/// The words between blanks.
fn command_words(state: &State, words: &str) -> Result<Vec<String>, NoMemory> {
    let mut list = Vec::new(state.alloc);
    for word in words.split(' ') {
        let word = word_of(state, word)?;
        if list.push(word).is_err() {
            return Err(NoMemory);
        }
    }
    Ok(list)
}

fn word_of(state: &State, word: &str) -> Result<String, NoMemory> {
    let bytes = state.texts.read(word)?;
    let word = str::from_utf8(bytes.as_slice()).unwrap_or("");
    match String::from_str(state.alloc, word) {
        Ok(word) => Ok(word),
        Err(_) => Err(NoMemory),
    }
}

fn most_of(options: &str) -> u64 {
    match small(option(options, "most")) {
        0 => 0x10_0000,
        most => u64::from(most),
    }
}

/// Calls `still`: its status, and whether it answered a journal.
fn called(
    alloc: Global,
    words: &[String],
    desk: &mut MemDesk,
    printed: &mut MemSink,
    told: &mut MemSink,
) -> (u8, bool) {
    let outcome = still(alloc, words, desk, printed, told);
    (outcome.status, outcome.journal.is_some())
}

fn put_call(
    alloc: Global,
    options: &str,
    words: &[String],
    desk: &mut MemDesk,
    out: &mut Bytes,
) -> Result<(), NoMemory> {
    let most = most_of(options).max(1);
    let mut printed = MemSink::new(alloc, most, calls(alloc, options, "out")?);
    let mut told = MemSink::new(alloc, most, calls(alloc, options, "err")?);
    let (status, has_journal) = called(alloc, words, desk, &mut printed, &mut told);
    push_decimal(out, u64::from(status))?;
    if has_journal {
        out.append(b", a journal")?;
    }
    put_taken(b", output ", printed.taken(), out)?;
    put_taken(b", error ", told.taken(), out)
}

/// The image of two texts by name and a seed is put under a name: `NAME TOPOLOGY TEMPLATE SEED`.
pub fn image(state: &mut State, rest: &str, out: &mut Bytes) -> Result<(), NoMemory> {
    let [name, topology, template, seed, ..] = words_of(rest);
    let alloc = state.alloc;
    let mut desk = State::new(alloc).desk("")?;
    desk.put_file("a.toml", state.texts.find(topology))?;
    desk.put_file("a.tm", state.texts.find(template))?;
    let Ok(line) = format!(in alloc; "build a.toml a.tm a.elf --seed {seed}") else {
        return Err(NoMemory);
    };
    let words = command_words(state, line.as_str())?;
    put_call(alloc, "", words.as_slice(), &mut desk, out)?;
    match held(&mut desk, "a.elf") {
        Some(file) => state.texts.put(name, file),
        None => Ok(()),
    }
}

/// So many bytes of a text from a place on: `NAME AT COUNT`.
pub fn slice(state: &State, rest: &str, out: &mut Bytes) -> Result<(), NoMemory> {
    let [name, at, count, ..] = words_of(rest);
    let from = small(at) as usize;
    let tail = state.texts.find(name).get(from..).unwrap_or(b"");
    put_shown(tail.get(..small(count) as usize).unwrap_or(tail), out)
}
