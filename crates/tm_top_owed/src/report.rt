// What goes to the error sink, and the status that a call ends with.
ghost use Rattle.std.specs.Prelude.{◌≡◌, IsFalse};
ghost use Rattle.tm_top_line.specs.Lines.{fault_text, wants_memory};
ghost use Rattle.tm_top_owed.specs.Texts.{no_memory, usage};
ghost use Rattle.tm_top_owed.specs.Changes.{sink_change, TookFront};
ghost use Rattle.tm_top_owed.specs.Steps.{Told, IsTellable, Reported};

use crate::stop::Stop;
use std::alloc::Global;
use tm_desk::{DeskError, Sink, SinkError, put_all};
use tm_refusals::Role;
use tm_top_line::{AnyFault, fault_line};

const USAGE: &[u8] = b"usage: threadmill build TOPO TEMPLATE OUT --seed S
       threadmill list IMAGE
       threadmill run IMAGE [--events N] [--order threads|round] [--faults F] [--trace OUT]
       threadmill sample N
       threadmill judge IMAGE TRACE
";

const NO_MEMORY: &[u8] = b"threadmill: no memory\n";

/// Says that there is no memory, where it can.
fn say_no_memory<E: Sink>(err: &mut E)
    ensures { TookFront (sink_change E.tells E.taken E.faults err.old err.new) no_memory }
{
    let _ = put_all(err, NO_MEMORY);
}

/// Says a text and answers its status, or 6 where there was no memory for it. A sink that fails changes no status.
fn say<E: Sink>(err: &mut E, text: &[u8], status: u8) -> u8
    ensures { Told (sink_change E.tells E.taken E.faults err.old err.new) text.now status result }
{
    match put_all(err, text) {
        Ok(()) => status,
        Err(SinkError::Failed) => status,
        Err(SinkError::NoMemory) => {
            say_no_memory(err);
            6
        }
    }
}

/// Says the line of a fault and answers its status, or 6.
fn say_fault<E: Sink>(alloc: Global, err: &mut E, role: Role, fault: &AnyFault, status: u8) -> u8
    requires { IsFalse (wants_memory fault.now) }
    ensures { Told (sink_change E.tells E.taken E.faults err.old err.new) (fault_text role fault.now) status result }
{
    match fault_line(alloc, role, fault) {
        Ok(text) => say(err, text.as_slice(), status),
        Err(_) => {
            say_no_memory(err);
            6
        }
    }
}

/// Says why a command stopped, and answers its status.
pub fn tell_stop<E: Sink>(alloc: Global, err: &mut E, stop: &Stop) -> u8
    requires { IsTellable stop.now }
    ensures { Reported stop.now (sink_change E.tells E.taken E.faults err.old err.new) result }
{
    match stop {
        Stop::Refused(role, fault) => say_fault(alloc, err, *role, fault, 3),
        Stop::Failed(role) => say_fault(alloc, err, *role, &AnyFault::Desk(DeskError::Failed), 5),
        Stop::NoMemory => {
            say_no_memory(err);
            6
        }
    }
}

/// Says the usage text, and answers the status.
#[tactic(auto, unfolding(crate::specs::Texts::usage))]
pub fn tell_usage<E: Sink>(err: &mut E) -> u8
    ensures { Told (sink_change E.tells E.taken E.faults err.old err.new) usage 2 result }
{
    say(err, USAGE, 2)
}
