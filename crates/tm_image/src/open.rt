// Opens an image by building it again.
ghost use Rattle.std.specs.Prelude.{◌≡◌, ◌≢◌, ◌≤◌, Ok, Err, IfOk, IfErr, MatchResult, length};
ghost use Rattle.tm_world.specs.Sound.{Sound};
ghost use Rattle.tm_elf.specs.Read.{elf_of};
ghost use Rattle.tm_image_build.specs.Built.{program_from};
ghost use Rattle.tm_image_inputs.specs.Inputs.{inputs};
ghost use Rattle.tm_image_build.specs.Opened.{compared, opened, rebuilt};
ghost use Rattle.tm_refusals.specs.Named.{IsNamedFault};

use std::alloc::Global;
use tm_base::{TEMPLATE_BYTES, TOPOLOGY_BYTES};
use tm_elf::read_elf;
use tm_elf_head::first_difference;
use tm_elf_write::Parts;
use tm_image_build::{Image, build};
use tm_refusals::{BuildFault, ElfFault, ImageFault};

/// The image of a file, if the file is what is built of its plan; else its first fault. A file is taken only where it
/// is the image's file, byte for byte.
#[tactic(auto, unfolding(tm_image_build::specs::Opened::opened))]
pub fn open_image(alloc: Global, bytes: &[u8]) -> Result<Image, ImageFault>
    ensures ok { IfOk result (λ image. opened bytes.now ≡ Ok image.file) }
    ensures file { IfOk result (λ image. image.file ≡ bytes.now) }
    ensures plan { IfOk result (λ image. MatchResult (elf_of bytes.now) (λ parts. rebuilt parts
        ≡ Ok bytes.now) (λ _. ⊥)) }
    ensures seed { IfOk result (λ image. MatchResult (elf_of bytes.now) (λ parts. image.seed
        ≡ parts.plan.seed) (λ _. ⊥)) }
    ensures program { IfOk result (λ image. MatchResult (elf_of bytes.now) (λ parts.
        program_from parts.plan.seed (inputs parts.plan.topo parts.plan.template) ≡ Ok image.program) (λ _. ⊥)) }
    ensures sound { IfOk result (λ image. Sound image.program) }
    ensures err { IfErr result (λ e. e ≢ ImageFault.NoMemory → opened bytes.now ≡ Err e) }
    ensures named { IfErr result IsNamedFault }
{
    match read_elf(alloc, bytes) {
        Ok(parts) => rebuild(alloc, &parts, bytes),
        Err(ElfFault::NoMemory) => Err(ImageFault::NoMemory),
        Err(fault) => Err(ImageFault::Elf(fault)),
    }
}

// The image of parts' plan, if its file is these bytes.
#[tactic(auto, unfolding(tm_image_build::specs::Opened::rebuilt), using(tm_elf_head::proofs::DifferenceLemmas::same_lists))]
fn rebuild(alloc: Global, parts: &Parts, bytes: &[u8]) -> Result<Image, ImageFault>
    requires topo { length parts.now.plan.topo ≤ TOPOLOGY_BYTES }
    requires template { length parts.now.plan.template ≤ TEMPLATE_BYTES }
    ensures ok { IfOk result (λ image. compared bytes.now (rebuilt parts.now) ≡ Ok image.file) }
    ensures file { IfOk result (λ image. image.file ≡ bytes.now) }
    ensures plan { IfOk result (λ image. rebuilt parts.now ≡ Ok bytes.now) }
    ensures seed { IfOk result (λ image. image.seed ≡ parts.now.plan.seed) }
    ensures program { IfOk result (λ image. program_from parts.now.plan.seed
        (inputs parts.now.plan.topo parts.now.plan.template) ≡ Ok image.program) }
    ensures sound { IfOk result (λ image. Sound image.program) }
    ensures err { IfErr result (λ e. e ≢ ImageFault.NoMemory → compared bytes.now (rebuilt parts.now) ≡ Err e) }
    ensures named { IfErr result IsNamedFault }
{
    let plan = &parts.plan;
    let image = match build(
        alloc,
        plan.topo.as_slice(),
        plan.template.as_slice(),
        plan.seed,
    ) {
        Ok(image) => image,
        Err(BuildFault::Input(fault)) => return Err(ImageFault::Inputs(fault)),
        Err(BuildFault::NoMemory) => return Err(ImageFault::NoMemory),
    };
    match first_difference(image.file.as_slice(), bytes) {
        Some(offset) => Err(ImageFault::Differs { offset }),
        None => Ok(image),
    }
}
