// The image that a command reads, opened.
ghost use Rattle.std.specs.Prelude.{◌≡◌, ◌≤◌, IsTrue, IfErr, IfOk};
ghost use Rattle.tm_image_build.specs.Opened.{opened};
ghost use Rattle.tm_top_owed.specs.Changes.{desk_change};
ghost use Rattle.tm_top_owed.specs.Owed.{IsOpened};
ghost use Rattle.tm_top_owed.specs.Steps.{FileStop, OpenStop, IsHeldImage};

use crate::steps::read_input;
use crate::stop::Stop;
use std::alloc::Global;
use tm_base::{Bytes, IMAGE_BYTES};
use tm_desk::Desk;
use tm_image::open_image;
use tm_image_build::Image;
use tm_refusals::{ImageFault, Role};
use tm_top_line::AnyFault;

// The image of a file, if the file is what is built of its plan.
#[tactic(auto, using(tm_top_line::proofs::Named::image_calm))]
fn opened_of(alloc: Global, file: &Bytes) -> Result<Image, Stop>
    ensures ok { IfOk result (λ image. IsOpened file.now image.program image.seed) }
    ensures err { IfErr result (λ stop. FileStop stop (opened file.now)) }
{
    match open_image(alloc, file.as_slice()) {
        Ok(image) => Ok(image),
        Err(ImageFault::NoMemory) => Err(Stop::NoMemory),
        Err(fault) => Err(Stop::Refused(Role::Image, AnyFault::Image(fault))),
    }
}

/// Reads and opens the image of a name, or stops where it isn't held, is too long or isn't opened.
pub fn open_input<D: Desk>(alloc: Global, name: &str, desk: &mut D) -> Result<Image, Stop>
    ensures ok { IfOk result (λ image.
        IsHeldImage name.now D.tells (D.held desk.old) image.program image.seed) }
    ensures unchanged { IsTrue D.tells → D.held desk.new ≡ D.held desk.old }
    ensures later { D.faults desk.old ≤ D.faults desk.new }
    ensures cause { IfErr result (λ stop.
        OpenStop stop name.now (desk_change D.tells D.held D.faults desk.old desk.new)) }
{
    let file = match read_input(desk, Role::Image, name, IMAGE_BYTES) {
        Ok(file) => file,
        Err(stop) => return Err(stop),
    };
    match opened_of(alloc, &file) {
        Ok(image) => Ok(image),
        Err(stop) => Err(stop),
    }
}
