// What was called, and what it answered.
use std::fmt::Display;
use std::io;
use std::str::from_utf8;

/// Prints a value by its name.
pub fn show<D: Display + Drop>(rt: &HostRuntime, what: &str, value: D) -> io::Result<()> {
    println!(rt; "{what}: {value}")?;
    Ok(())
}

/// Prints some bytes of text.
pub fn show_text(rt: &HostRuntime, what: &str, bytes: &[u8]) -> io::Result<()> {
    match from_utf8(bytes) {
        Ok(text) => show(rt, what, text),
        Err(_) => show(rt, what, "no text"),
    }
}

/// Prints that a call is done, or its error.
pub fn show_done<E: Display + Drop>(
    rt: &HostRuntime,
    what: &str,
    answer: Result<(), E>,
) -> io::Result<()> {
    match answer {
        Ok(()) => show(rt, what, "done"),
        Err(error) => show(rt, what, error),
    }
}
