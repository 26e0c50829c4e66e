// The program: its words, its streams and its status.
ghost use Rattle.std.specs.Prelude.{◌≡◌, drop, IfErr, IfOk, IsOkAnd};
ghost use Rattle.std.specs.Process.{exit_status};
ghost use Rattle.std.specs.Vec.Iter.{into_iter_items};
ghost use Rattle.tm_top_owed.specs.Changes.{desk_change, sink_change};
ghost use Rattle.tm_top_owed.specs.Runs.{events_in};
ghost use Rattle.tm_top.specs.Program.{OwesFor, EndsFor, IsCauseOf, IsOwed};

use crate::call::top;
use std::alloc::Global;
use std::env::{self, Args};
use std::io::{self, ErrorKind};
use std::process::ExitCode;
use std::rt::HostRuntime;
use std::sync::Wait;
use std::thread::Threads;
use tm_desk::{Desk, Gate, OpenGate, RealDesk, RealSink, Sink};
use tm_top_owed::{Outcome, Stop, tell_stop};

/// Why the words couldn't be had.
#[derive(Drop)]
pub enum NoWords {
    /// A word isn't UTF-8.
    NotText,
    /// There was no memory.
    NoMemory,
}

/// The words among the arguments, of which the first is the program's name.
fn words_in(alloc: Global, args: io::Result<Args>) -> Result<Vec<String>, NoWords>
    ensures words { IfOk result (λ words. IsOkAnd args (λ all. words.items ≡ drop 1 (into_iter_items all))) }
    ensures cause { IfErr result (λ why. IsCauseOf why args) }
{
    match args {
        Ok(args) => match args.skip(1).collect(alloc) {
            Ok(words) => Ok(words),
            Err(_) => Err(NoWords::NoMemory),
        },
        Err(fault) if fault.kind() == ErrorKind::OutOfMemory => Err(NoWords::NoMemory),
        Err(_) => Err(NoWords::NotText),
    }
}

/// The words that the program was started with, without its name.
fn words_of(rt: &HostRuntime) -> Result<Vec<String>, NoWords> {
    words_in(rt.alloc(), env::args(rt))
}

/// Does what the words say, over what is handed in, and answers how it ended. It may wait.
///
/// Words that are no text are refused like any others that are no command.
pub fn outcome_of<R: Threads + Wait + Sync, D: Desk, O: Sink, G: Gate, E: Sink>(
    rt: &R,
    alloc: Global,
    words: Result<Vec<String>, NoWords>,
    desk: &mut D,
    out: &mut O,
    err: &mut E,
    gate: &G,
) -> Outcome
    ensures { OwesFor words
        (desk_change D.tells D.held D.faults desk.old desk.new)
        (sink_change O.tells O.taken O.faults out.old out.new)
        (sink_change E.tells E.taken E.faults err.old err.new)
        (events_in result.journal) result.status }
{
    match words {
        Ok(words) => top(rt, alloc, &words, desk, out, err, gate),
        Err(NoWords::NotText) => top(rt, alloc, &[], desk, out, err, gate),
        Err(NoWords::NoMemory) => Outcome {
            status: tell_stop(alloc, err, &Stop::NoMemory),
            journal: None,
        },
    }
}

/// Does what the words say, over what is handed in, and ends with the status of how that ended. It may wait.
pub fn exit_of<R: Threads + Wait + Sync, D: Desk, O: Sink, G: Gate, E: Sink>(
    rt: &R,
    alloc: Global,
    words: Result<Vec<String>, NoWords>,
    desk: &mut D,
    out: &mut O,
    err: &mut E,
    gate: &G,
) -> ExitCode
    ensures { EndsFor words
        (desk_change D.tells D.held D.faults desk.old desk.new)
        (sink_change O.tells O.taken O.faults out.old out.new)
        (sink_change E.tells E.taken E.faults err.old err.new)
        (exit_status result) }
{
    let outcome = outcome_of(rt, alloc, words, desk, out, err, gate);
    ExitCode::from(outcome.status)
}

/// The whole program, over the real files and streams, and with the threads of the handle. It may wait.
pub fn run<R: Threads + Wait + Sync>(rt: HostRuntime, threads: &R) -> ExitCode
    ensures { IsOwed (exit_status result) }
{
    let alloc = rt.alloc();
    let words = words_of(&rt);
    let mut out = RealSink::new(rt.stdout());
    let mut err = RealSink::new(rt.stderr());
    let mut desk = RealDesk::new(alloc, rt);
    exit_of(
        threads, alloc, words, &mut desk, &mut out, &mut err, &OpenGate,
    )
}
