// The end of a run: its trace is written, and its text is printed.
ghost use Rattle.std.specs.Prelude.{◌≡◌, ◌≤◌, IfErr, IfOk, OnOk, Some};
ghost use Rattle.tm_trace.specs.Traced.{IsTrace};
ghost use Rattle.tm_top_owed.specs.Changes.{desk_change, sink_change};
ghost use Rattle.tm_top_owed.specs.Owed.{AllButTraceStay, HoldsTrace};
ghost use Rattle.tm_top_owed.specs.Runs.{events_in};
ghost use Rattle.tm_top_run.specs.Steps.{FinishStop, IsFinished, TraceStop};

use std::alloc::Global;
use tm_base::Name;
use tm_desk::{Desk, Sink};
use tm_plan_journal::Journal;
use tm_refusals::Role;
use tm_top_owed::{Outcome, Simulated, Stop, print_simulated, write_output};
use tm_trace::write_trace;

// Writes the trace of so many harts' events to the file of a name.
fn write_named<D: Desk>(
    alloc: Global,
    name: &Name,
    harts: u32,
    journal: &Journal,
    desk: &mut D,
) -> Result<(), Stop>
    requires { IsTrace harts journal.now.events }
    ensures holds { OnOk result
        (HoldsTrace (Some name.now) harts journal.now.events D.tells (D.held desk.new)) }
    ensures others { AllButTraceStay (Some name.now) (desk_change D.tells D.held D.faults desk.old desk.new) }
    ensures later { D.faults desk.old ≤ D.faults desk.new }
    ensures cause { IfErr result (λ stop. TraceStop stop (Some name.now) (D.faults desk.old) (D.faults desk.new)) }
{
    let text = match write_trace(alloc, harts, journal) {
        Ok(text) => text,
        Err(_) => return Err(Stop::NoMemory),
    };
    match write_output(desk, Role::Trace, name.as_str(), &text) {
        Ok(()) => Ok(()),
        Err(stop) => Err(stop),
    }
}

// Writes the trace of so many harts' events, where one is asked for.
fn write_asked<D: Desk>(
    alloc: Global,
    name: &Option<Name>,
    harts: u32,
    journal: &Journal,
    desk: &mut D,
) -> Result<(), Stop>
    requires { IsTrace harts journal.now.events }
    ensures holds { OnOk result (HoldsTrace name.now harts journal.now.events D.tells (D.held desk.new)) }
    ensures others { AllButTraceStay name.now (desk_change D.tells D.held D.faults desk.old desk.new) }
    ensures later { D.faults desk.old ≤ D.faults desk.new }
    ensures cause { IfErr result (λ stop. TraceStop stop name.now (D.faults desk.old) (D.faults desk.new)) }
{
    match name {
        Some(name) => write_named(alloc, name, harts, journal, desk),
        None => Ok(()),
    }
}

/// Writes the trace of a simulation of so many harts, where one is asked for, and then prints its text. For the trace
/// it takes memory for one text.
pub fn finish<D: Desk, O: Sink>(
    alloc: Global,
    trace: &Option<Name>,
    harts: u32,
    simulated: Simulated,
    desk: &mut D,
    out: &mut O,
) -> Result<Outcome, Stop>
    requires { IsTrace harts simulated.journal.events }
    ensures finished { IfOk result (λ _. IsFinished trace.now harts simulated.journal.events simulated.text
        (desk_change D.tells D.held D.faults desk.old desk.new)
        (sink_change O.tells O.taken O.faults out.old out.new)) }
    ensures status { IfOk result (λ end. end.status ≡ simulated.status) }
    ensures journal { IfOk result (λ end. events_in end.journal ≡ Some simulated.journal.events) }
    ensures others { AllButTraceStay trace.now (desk_change D.tells D.held D.faults desk.old desk.new) }
    ensures later { D.faults desk.old ≤ D.faults desk.new }
    ensures stopped { IfErr result (λ stop. FinishStop stop trace.now harts simulated.journal.events simulated.text
        (desk_change D.tells D.held D.faults desk.old desk.new)
        (sink_change O.tells O.taken O.faults out.old out.new)) }
{
    match write_asked(alloc, trace, harts, &simulated.journal, desk) {
        Ok(()) => (),
        Err(stop) => return Err(stop),
    }
    match print_simulated(simulated, out) {
        Ok(outcome) => Ok(outcome),
        Err(stop) => Err(stop),
    }
}
