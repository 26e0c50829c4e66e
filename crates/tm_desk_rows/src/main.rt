//! Writes and reads real files where it runs, and puts bytes into sinks over real streams and others. It prints what
//! they answer, of which no contract tells: what a real file holds, and what a stream takes.
#![tactic(auto)]

mod files;
mod shown;
mod sinks;
mod streams;

use std::io;

fn main(rt: HostRuntime) -> io::Result<()> {
    files::short_file(&rt)?;
    files::long_file(&rt)?;
    files::old_file(&rt)?;
    sinks::output(&rt)?;
    sinks::refusals(&rt)?;
    sinks::short_writes(&rt)?;
    sinks::long_writes(&rt)
}
