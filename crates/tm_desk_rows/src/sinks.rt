// Sinks over the output and over streams that are made up.
use crate::shown::{show, show_done, show_text};
use crate::streams::{Few, Refusing};
use std::io::{self, ErrorKind};
use tm_desk::{RealSink, Sink, SinkError, put_all};

/// What a stream answers.
const REFUSALS: [(&str, Option<ErrorKind>); 3] = [
    ("a stream that takes nothing", None),
    ("a broken pipe", Some(ErrorKind::BrokenPipe)),
    ("a stream without memory", Some(ErrorKind::OutOfMemory)),
];

/// Prints what a put answered.
fn show_put(rt: &HostRuntime, what: &str, answer: Result<u64, SinkError>) -> io::Result<()> {
    match answer {
        Ok(count) => show(rt, what, count),
        Err(error) => show(rt, what, error),
    }
}

/// The output takes bytes.
pub fn output(rt: &HostRuntime) -> io::Result<()> {
    let mut sink = RealSink::new(rt.stdout());
    println!(rt; "the output")?;
    let answer = put_all(&mut sink, b"some bytes\n");
    show_done(rt, "put of 11 bytes", answer)?;
    show_put(rt, "put of no byte", sink.put(b""))?;
    show(rt, "faults", sink.faults())
}

/// Streams refuse a byte.
pub fn refusals(rt: &HostRuntime) -> io::Result<()> {
    for (name, answer) in REFUSALS {
        let mut sink = RealSink::new(Refusing { answer });
        println!(rt; "{name}")?;
        show_put(rt, "put of a byte", sink.put(b"x"))?;
        show(rt, "faults", sink.faults())?;
    }
    Ok(())
}

/// Over a stream that takes one byte at a time, and is interrupted before each, nothing is lost.
pub fn short_writes(rt: &HostRuntime) -> io::Result<()> {
    let stream = Few::new(rt.alloc(), 1);
    let mut sink = RealSink::new(&stream);
    println!(rt; "a stream that takes one byte at a time")?;
    let answer = put_all(&mut sink, b"some bytes");
    show_done(rt, "put of 10 bytes", answer)?;
    show(rt, "faults", sink.faults())?;
    show_text(rt, "taken", stream.into_taken().as_slice())
}

/// One put gives a stream all the bytes at once, and answers how many of them it took.
pub fn long_writes(rt: &HostRuntime) -> io::Result<()> {
    let stream = Few::new(rt.alloc(), 4);
    let mut sink = RealSink::new(&stream);
    println!(rt; "a stream that takes four bytes at a time")?;
    show_put(rt, "put of 10 bytes", sink.put(b"some bytes"))?;
    show_put(rt, "put of 3 bytes", sink.put(b"ony"))?;
    show(rt, "faults", sink.faults())?;
    show_text(rt, "taken", stream.into_taken().as_slice())
}
