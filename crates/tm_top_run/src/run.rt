// The command that runs an image in round order.
ghost use Rattle.std.specs.Prelude.{◌≡◌, ◌≤◌, false, IfErr, IfOk};
ghost use Rattle.tm_plan_script.specs.Accepted.{AreAccepted};
ghost use Rattle.tm_world.specs.Sound.{Sound};
ghost use Rattle.tm_words.specs.declared.command.Command.TheVariants as commands;
ghost use Rattle.tm_top_owed.specs.Runs.{events_in, IsRoundOrder};
ghost use Rattle.tm_top_owed.specs.Changes.{desk_change, sink_change};
ghost use Rattle.tm_top_owed.specs.Owed.{AllButTraceStay, IsDone};
ghost use Rattle.tm_top_owed.specs.Steps.{Stopped};
ghost use Rattle.tm_top_run.specs.Steps.{IsToldOf};

use crate::finish::finish;
use crate::inputs::read_inputs;
use crate::tell::told;
use std::alloc::Global;
use tm_base::{MOST_EVENTS, NoMemory};
use tm_desk::{Desk, Sink};
use tm_plan_cases::Program;
use tm_plan_script::Faults;
use tm_top_owed::{Outcome, Simulated, Stop, run_in_order};
use tm_words::Run;

// Simulates a program under a script in round order, of at most so many events, and tells it.
fn simulate(
    alloc: Global,
    program: &Program,
    faults: Faults,
    events: u64,
) -> Result<Simulated, NoMemory>
    requires sound { Sound program.now }
    requires accepted { AreAccepted program.now.cases faults }
    requires some { 1 ≤ events }
    requires few { events ≤ MOST_EVENTS }
    ensures told { IfOk result (λ s.
        IsToldOf program.now faults events s.journal.events s.text s.status) }
    ensures order { IfOk result (λ s. IsRoundOrder program.now faults events s.journal.events) }
{
    let guest = run_in_order(alloc, program, faults, events)?;
    told(alloc, program, guest)
}

/// Reads and opens the image, reads the script of faults that is asked for, runs the image under it in round order,
/// writes the trace that is asked for, and prints how the run ended: where all harts came to their halt marks with the
/// report, and status 0 where no case is reported, and else 1; and else with the line that says so, and status 4.
/// Without a script no case is reported.
///
/// Asked: 1 to 100,000,000 events, as the words of a run have.
pub fn run_command<D: Desk, O: Sink>(
    alloc: Global,
    run: &Run,
    desk: &mut D,
    out: &mut O,
) -> Result<Outcome, Stop>
    requires order { run.now.threads ≡ false }
    requires some { 1 ≤ run.now.events }
    requires few { run.now.events ≤ MOST_EVENTS }
    ensures done { IfOk result (λ d. IsDone (commands.Run run.now)
        (desk_change D.tells D.held D.faults desk.old desk.new)
        (sink_change O.tells O.taken O.faults out.old out.new) d.status (events_in d.journal)) }
    ensures stopped { IfErr result (λ stop. Stopped stop (commands.Run run.now)
        (desk_change D.tells D.held D.faults desk.old desk.new)
        (sink_change O.tells O.taken O.faults out.old out.new)) }
    ensures rest { AllButTraceStay run.now.trace (desk_change D.tells D.held D.faults desk.old desk.new) }
{
    let inputs = match read_inputs(alloc, run, desk) {
        Ok(inputs) => inputs,
        Err(stop) => return Err(stop),
    };
    let faults = inputs.faults;
    let simulated = match simulate(alloc, &inputs.image.program, faults, run.events) {
        Ok(simulated) => simulated,
        Err(_) => return Err(Stop::NoMemory),
    };
    let harts = inputs.image.program.cases.harts;
    match finish(alloc, &run.trace, harts, simulated, desk, out) {
        Ok(outcome) => Ok(outcome),
        Err(stop) => Err(stop),
    }
}
