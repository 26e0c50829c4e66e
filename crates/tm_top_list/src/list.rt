// The command that lists an image.
ghost use Rattle.std.specs.Prelude.{◌≡◌, ◌≤◌, IsTrue, IfErr, IfOk, OnOk, None};
ghost use Rattle.tm_words.specs.declared.command.Command.TheVariants as commands;
ghost use Rattle.tm_top_owed.specs.Changes.{desk_change, sink_change, FilesStay};
ghost use Rattle.tm_top_owed.specs.Owed.{IsDone, IsListingOf};
ghost use Rattle.tm_top_owed.specs.Steps.{InputStop, Stopped};

use std::alloc::Global;
use tm_base::Text;
use tm_desk::{Desk, Sink};
use tm_report::list_text;
use tm_top_owed::{Stop, open_input, print_text};

/// Reads the image and lists it, or stops where it isn't held, is too long or isn't opened.
fn read_listing<D: Desk>(alloc: Global, image: &str, desk: &mut D) -> Result<Text, Stop>
    ensures ok { IfOk result (λ text. IsListingOf image.now D.tells (D.held desk.old) text) }
    ensures unchanged { IsTrue D.tells → D.held desk.new ≡ D.held desk.old }
    ensures later { D.faults desk.old ≤ D.faults desk.new }
    ensures cause { IfErr result (λ stop.
        InputStop stop (commands.List image.now) (desk_change D.tells D.held D.faults desk.old desk.new)) }
{
    let image = match open_input(alloc, image, desk) {
        Ok(image) => image,
        Err(stop) => return Err(stop),
    };
    match list_text(alloc, &image.program, image.seed) {
        Ok(text) => Ok(text),
        Err(_) => Err(Stop::NoMemory),
    }
}

/// Reads and opens the image, and prints its listing.
#[tactic(auto, using(tm_top_owed::proofs::Stops::input_stopped))]
pub fn list_command<D: Desk, O: Sink>(
    alloc: Global,
    image: &str,
    desk: &mut D,
    out: &mut O,
) -> Result<(), Stop>
    ensures done { OnOk result (IsDone (commands.List image.now)
        (desk_change D.tells D.held D.faults desk.old desk.new)
        (sink_change O.tells O.taken O.faults out.old out.new) 0 None) }
    ensures stopped { IfErr result (λ stop. Stopped stop (commands.List image.now)
        (desk_change D.tells D.held D.faults desk.old desk.new)
        (sink_change O.tells O.taken O.faults out.old out.new)) }
    ensures stay { FilesStay (desk_change D.tells D.held D.faults desk.old desk.new) }
{
    let text = match read_listing(alloc, image, desk) {
        Ok(text) => text,
        Err(stop) => return Err(stop),
    };
    match print_text(out, &text) {
        Ok(()) => Ok(()),
        Err(stop) => Err(stop),
    }
}
