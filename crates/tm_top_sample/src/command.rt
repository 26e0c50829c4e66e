// The command that builds and runs a sample.
ghost use Rattle.std.specs.Prelude.{IfOk, IfErr};
ghost use Rattle.tm_words.specs.declared.command.Command.TheVariants as commands;
ghost use Rattle.tm_top_owed.specs.Changes.{DeskChange, sink_change, FilesStay};
ghost use Rattle.tm_top_owed.specs.Owed.{IsDone};
ghost use Rattle.tm_top_owed.specs.Runs.{events_in};
ghost use Rattle.tm_top_owed.specs.Steps.{Stopped};

use crate::made::sample_image;
use crate::simulated::simulated;
use std::alloc::Global;
use tm_desk::Sink;
use tm_top_owed::{Outcome, Stop, print_simulated};

/// Builds the sample of a number, simulates it and prints its line. All harts come to halt, and the status is 0.
///
/// It stops where the sink fails, or for want of memory: no sample is refused. It reads and writes no file, so that
/// what it owes holds of each desk that stays as it is.
pub fn sample_command<O: Sink>(alloc: Global, n: u64, out: &mut O) -> Result<Outcome, Stop>
    ensures done { IfOk result (λ ended. (desk : DeskChange) → IsDone (commands.Sample n) desk
        (sink_change O.tells O.taken O.faults out.old out.new) ended.status (events_in ended.journal)) }
    ensures stopped { IfErr result (λ stop. (desk : DeskChange) → FilesStay desk → Stopped stop (commands.Sample n) desk
        (sink_change O.tells O.taken O.faults out.old out.new)) }
{
    let image = match sample_image(alloc, n) {
        Ok(image) => image,
        Err(_) => return Err(Stop::NoMemory),
    };
    let simulated = match simulated(alloc, n, &image.program) {
        Ok(simulated) => simulated,
        Err(_) => return Err(Stop::NoMemory),
    };
    match print_simulated(simulated, out) {
        Ok(outcome) => Ok(outcome),
        Err(stop) => Err(stop),
    }
}
