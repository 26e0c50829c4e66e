// The trace that is judged.
ghost use Rattle.std.specs.Prelude.{◌≡◌, ◌≤◌, IsTrue, IfErr, IfOk, Ok};
ghost use Rattle.tm_plan_cases.specs.Shaped.{IsProgram};
ghost use Rattle.tm_trace.specs.Reading.{trace_of};
ghost use Rattle.tm_trace.specs.Traced.{IsTrace};
ghost use Rattle.tm_top_owed.specs.Changes.{desk_change};
ghost use Rattle.tm_top_owed.specs.Owed.{IsHeldTrace};
ghost use Rattle.tm_top_judge.specs.Steps.{HartsStop, IsJudgedOver, TextStop, TraceStop};

use std::alloc::Global;
use tm_base::Bytes;
use tm_desk::Desk;
use tm_judge::{JudgeFault, Judgement, judge};
use tm_plan_cases::Program;
use tm_refusals::Role;
use tm_top_line::AnyFault;
use tm_top_owed::{Stop, TRACE_BYTES, read_input};
use tm_trace::{Trace, TraceFault, read_trace};

// The trace that a text is.
fn trace_in(alloc: Global, text: &Bytes) -> Result<Trace, Stop>
    ensures ok { IfOk result (λ t. trace_of text.now ≡ Ok (t.harts, t.events.events)) }
    ensures is { IfOk result (λ t. IsTrace t.harts t.events.events) }
    ensures err { IfErr result (λ stop. TextStop stop (trace_of text.now)) }
{
    match read_trace(alloc, text.as_slice()) {
        Ok(trace) => Ok(trace),
        Err(TraceFault::NoMemory) => Err(Stop::NoMemory),
        Err(fault) => Err(Stop::Refused(Role::Trace, AnyFault::Trace(fault))),
    }
}

/// Reads the trace of a name, or stops where it isn't held, is too long or is none. Its text isn't kept.
pub fn read_named<D: Desk>(alloc: Global, name: &str, desk: &mut D) -> Result<Trace, Stop>
    ensures ok { IfOk result (λ t. IsHeldTrace name.now D.tells (D.held desk.old) t.harts t.events.events) }
    ensures is { IfOk result (λ t. IsTrace t.harts t.events.events) }
    ensures unchanged { IsTrue D.tells → D.held desk.new ≡ D.held desk.old }
    ensures later { D.faults desk.old ≤ D.faults desk.new }
    ensures cause { IfErr result (λ stop.
        TraceStop stop name.now (desk_change D.tells D.held D.faults desk.old desk.new)) }
{
    let text = match read_input(desk, Role::Trace, name, TRACE_BYTES) {
        Ok(text) => text,
        Err(stop) => return Err(stop),
    };
    match trace_in(alloc, &text) {
        Ok(trace) => Ok(trace),
        Err(stop) => Err(stop),
    }
}

/// Judges a trace, or stops where it is one of another number of harts than the program's.
pub fn judged(alloc: Global, program: &Program, trace: &Trace) -> Result<Judgement, Stop>
    requires program { IsProgram program.now }
    requires trace { IsTrace trace.now.harts trace.now.events.events }
    ensures ok { IfOk result (λ j. IsJudgedOver program.now trace.now.harts trace.now.events.events j) }
    ensures err { IfErr result (λ stop. HartsStop stop program.now trace.now.harts) }
{
    match judge(alloc, program, trace) {
        Ok(judgement) => Ok(judgement),
        Err(JudgeFault::NoMemory) => Err(Stop::NoMemory),
        Err(fault) => Err(Stop::Refused(Role::Trace, AnyFault::Judge(fault))),
    }
}
