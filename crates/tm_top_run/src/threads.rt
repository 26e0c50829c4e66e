// The command that runs an image with a thread for each hart.
ghost use Rattle.std.specs.Prelude.{◌≡◌, ◌≤◌, true, IfErr, IfOk};
ghost use Rattle.tm_plan_script.specs.Accepted.{AreAccepted};
ghost use Rattle.tm_world.specs.Sound.{Sound};
ghost use Rattle.tm_words.specs.declared.command.Command.TheVariants as commands;
ghost use Rattle.tm_top_owed.specs.Runs.{events_in};
ghost use Rattle.tm_top_owed.specs.Changes.{desk_change, sink_change};
ghost use Rattle.tm_top_owed.specs.Owed.{AllButTraceStay, IsDone};
ghost use Rattle.tm_top_owed.specs.Steps.{Stopped};
ghost use Rattle.tm_top_run.specs.Steps.{IsToldOf};

use crate::finish::finish;
use crate::inputs::read_inputs;
use crate::tell::told;
use std::alloc::Global;
use std::sync::Wait;
use std::thread::Threads;
use tm_base::{MOST_EVENTS, NoMemory};
use tm_desk::{Desk, Gate, Sink};
use tm_guest::Guest;
use tm_harts::{Mill, run_threads};
use tm_plan_cases::Program;
use tm_plan_script::Faults;
use tm_top_owed::{Outcome, Simulated, Stop};
use tm_words::Run;

// Simulates a program under a script whose harts are driven by threads, of at most so many events, and tells it. What
// the threads leave waiting is finished in round order.
#[tactic(auto)]
fn driven<R: Threads + Wait + Sync, G: Gate>(
    rt: &R,
    alloc: Global,
    program: &Program,
    faults: Faults,
    events: u64,
    gate: &G,
) -> Result<Simulated, NoMemory>
    requires sound { Sound program.now }
    requires accepted { AreAccepted program.now.cases faults }
    requires some { 1 ≤ events }
    requires few { events ≤ MOST_EVENTS }
    ensures { IfOk result (λ s. IsToldOf program.now faults events s.journal.events s.text s.status) }
{
    let guest = Guest::start(alloc, program, faults, events)?;
    let (mill, mut seats) = Mill::start(alloc, guest)?;
    run_threads(rt, &mill, &mut seats, gate);
    let mut guest = mill.close(seats);
    let _ = guest.run_round();
    told(alloc, program, guest)
}

/// Reads and opens the image, reads the script of faults that is asked for, runs the image under it with a thread for
/// each hart, writes the trace that is asked for, and prints how the run ended: where all harts came to their halt
/// marks with the report, and status 0 where no case is reported, and else 1; and else with the line that says so, and
/// status 4. Without a script no case is reported. Each turn of a hart passes the gate. It may wait.
///
/// Asked: 1 to 100,000,000 events, as the words of a run have.
pub fn threads_command<R: Threads + Wait + Sync, D: Desk, O: Sink, G: Gate>(
    rt: &R,
    alloc: Global,
    run: &Run,
    desk: &mut D,
    out: &mut O,
    gate: &G,
) -> Result<Outcome, Stop>
    requires order { run.now.threads ≡ true }
    requires some { 1 ≤ run.now.events }
    requires few { run.now.events ≤ MOST_EVENTS }
    ensures done { IfOk result (λ d. IsDone (commands.Run run.now)
        (desk_change D.tells D.held D.faults desk.old desk.new)
        (sink_change O.tells O.taken O.faults out.old out.new) d.status (events_in d.journal)) }
    ensures stopped { IfErr result (λ stop. Stopped stop (commands.Run run.now)
        (desk_change D.tells D.held D.faults desk.old desk.new)
        (sink_change O.tells O.taken O.faults out.old out.new)) }
    ensures rest { AllButTraceStay run.now.trace (desk_change D.tells D.held D.faults desk.old desk.new) }
{
    let inputs = match read_inputs(alloc, run, desk) {
        Ok(inputs) => inputs,
        Err(stop) => return Err(stop),
    };
    let faults = inputs.faults;
    let simulated = match driven(rt, alloc, &inputs.image.program, faults, run.events, gate) {
        Ok(simulated) => simulated,
        Err(_) => return Err(Stop::NoMemory),
    };
    let harts = inputs.image.program.cases.harts;
    match finish(alloc, &run.trace, harts, simulated, desk, out) {
        Ok(outcome) => Ok(outcome),
        Err(stop) => Err(stop),
    }
}
