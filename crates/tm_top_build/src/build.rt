// The command that builds an image.
ghost use Rattle.std.specs.Prelude.{IfErr, OnOk, None};
ghost use Rattle.tm_words.specs.declared.command.Command.TheVariants as commands;
ghost use Rattle.tm_top_owed.specs.Changes.{desk_change, sink_change, OtherFilesStay};
ghost use Rattle.tm_top_owed.specs.Owed.{IsDone};
ghost use Rattle.tm_top_owed.specs.Steps.{Stopped};

use crate::inputs::make_image;
use std::alloc::Global;
use tm_desk::{Desk, Sink};
use tm_refusals::Role;
use tm_top_owed::{Stop, print_text, write_output};
use tm_words::Build;

/// Reads and refuses the inputs, builds, writes and prints.
#[tactic(auto, using(tm_top_owed::proofs::Stops::input_stopped, tm_top_owed::proofs::Stops::write_stopped))]
pub fn build_command<D: Desk, O: Sink>(
    alloc: Global,
    b: &Build,
    desk: &mut D,
    out: &mut O,
) -> Result<(), Stop>
    ensures done { OnOk result (IsDone (commands.Build b.now)
        (desk_change D.tells D.held D.faults desk.old desk.new)
        (sink_change O.tells O.taken O.faults out.old out.new) 0 None) }
    ensures stopped { IfErr result (λ stop. Stopped stop (commands.Build b.now)
        (desk_change D.tells D.held D.faults desk.old desk.new)
        (sink_change O.tells O.taken O.faults out.old out.new)) }
    ensures others { OtherFilesStay (desk_change D.tells D.held D.faults desk.old desk.new) b.now.out }
{
    let made = match make_image(alloc, b, desk) {
        Ok(made) => made,
        Err(stop) => return Err(stop),
    };
    match write_output(desk, Role::Output, b.out.as_str(), &made.file) {
        Ok(()) => (),
        Err(stop) => return Err(stop),
    }
    match print_text(out, &made.line) {
        Ok(()) => Ok(()),
        Err(stop) => Err(stop),
    }
}
