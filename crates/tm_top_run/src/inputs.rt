// The inputs of a run, read and refused in the order of work.
ghost use Rattle.std.specs.Prelude.{◌≡◌, ◌≤◌, IsTrue, IfErr, IfOk};
ghost use Rattle.tm_plan_script.specs.Accepted.{AreAccepted};
ghost use Rattle.tm_world.specs.Sound.{Sound};
ghost use Rattle.tm_words.specs.declared.command.Command.TheVariants as commands;
ghost use Rattle.tm_top_owed.specs.Changes.{desk_change};
ghost use Rattle.tm_top_owed.specs.Owed.{IsRunOn};
ghost use Rattle.tm_top_owed.specs.Steps.{InputStop};

use crate::script::read_script;
use std::alloc::Global;
use tm_desk::Desk;
use tm_image_build::Image;
use tm_plan_script::Faults;
use tm_top_owed::{Stop, open_input};
use tm_words::Run;

/// An image, and the script under which it is run.
#[derive(Drop)]
pub struct Inputs {
    pub image: Image,
    pub faults: Faults,
}

/// Reads and opens the image, and then reads the script that is asked for; or stops at the first that isn't held, is
/// too long or is refused.
pub fn read_inputs<D: Desk>(alloc: Global, run: &Run, desk: &mut D) -> Result<Inputs, Stop>
    ensures on { IfOk result (λ i. IsRunOn run.now D.tells (D.held desk.old) i.image.program i.faults) }
    ensures sound { IfOk result (λ i. Sound i.image.program) }
    ensures accepted { IfOk result (λ i. AreAccepted i.image.program.cases i.faults) }
    ensures unchanged { IsTrue D.tells → D.held desk.new ≡ D.held desk.old }
    ensures later { D.faults desk.old ≤ D.faults desk.new }
    ensures cause { IfErr result (λ stop.
        InputStop stop (commands.Run run.now) (desk_change D.tells D.held D.faults desk.old desk.new)) }
{
    let image = match open_input(alloc, run.image.as_str(), desk) {
        Ok(image) => image,
        Err(stop) => return Err(stop),
    };
    match read_script(alloc, &run.faults, &image.program.cases, desk) {
        Ok(faults) => Ok(Inputs { image, faults }),
        Err(stop) => Err(stop),
    }
}
