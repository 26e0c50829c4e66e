// From the two texts to the image.
ghost use Rattle.std.specs.Prelude.{◌≡◌, ◌≤◌, Ok, IfOk, IfErr, length};
ghost use Rattle.tm_base.specs.declared.limits.TheConstants.{TEMPLATE_BYTES, TOPOLOGY_BYTES};
ghost use Rattle.tm_plan_cases.specs.Shaped.{IsProgram};
ghost use Rattle.tm_world.specs.Sound.{Sound};
ghost use Rattle.tm_image_inputs.specs.Inputs.{inputs, IsFaultOf};
ghost use Rattle.tm_image_build.specs.Built.{built, image_file, program_from};
ghost use Rattle.tm_image_build.specs.Opened.{IsOfItsPlan};

use crate::symbols::symbols_of;
use std::alloc::Global;
use tm_base::{Bytes, NoMemory};
use tm_elf_write::{Parts, Plan, write_elf};
use tm_image_inputs::read_inputs;
use tm_image_program::program_of;
use tm_plan_cases::Program;
use tm_refusals::BuildFault;

/// A program with the seed that it was built with, and its file. Each image is sound, and its file is what is built of
/// its own plan, with this seed and program.
#[derive(Drop)]
pub struct Image {
    pub program: Program,
    pub seed: u64,
    pub file: Bytes,
    pub ghost is_sound: { ∥ Sound program ∥₁ },
    pub ghost of_its_plan: { ∥ IsOfItsPlan program seed file ∥₁ },
}

/// The image of two texts and a seed, or their first fault. The topology, of at most 65,536 bytes, is
/// refused before the template, of at most 1,048,576 bytes.
#[tactic(auto, using(crate::proofs::BuildLemmas::built_ok, crate::proofs::BuildLemmas::built_err, crate::proofs::BuildLemmas::program_ok))]
pub fn build(alloc: Global, topo: &[u8], template: &[u8], seed: u64) -> Result<Image, BuildFault>
    requires topo { length topo.now ≤ TOPOLOGY_BYTES }
    requires template { length template.now ≤ TEMPLATE_BYTES }
    ensures ok { IfOk result (λ image. built topo.now template.now seed ≡ Ok image.file) }
    ensures program { IfOk result (λ image. program_from seed (inputs topo.now template.now) ≡ Ok image.program) }
    ensures file { IfOk result (λ image. image.file ≡ image_file image.program topo.now template.now seed) }
    ensures sound { IfOk result (λ image. Sound image.program) }
    ensures seed { IfOk result (λ image. image.seed ≡ seed) }
    ensures err { IfErr result (λ fault. IsFaultOf fault (built topo.now template.now seed)) }
{
    let test = match read_inputs(alloc, topo, template) {
        Ok(test) => test,
        Err(fault) => return Err(fault),
    };
    let program = program_of(alloc, &test, seed)?;
    let (program, file) = written(alloc, program, topo, template, seed)?;
    Ok(Image {
        program,
        seed,
        file,
    })
}

// The program, and its file. Its text and tables stand among the parts of the file while that is written.
#[tactic(auto, unfolding(crate::specs::Built::image_file, crate::specs::Built::parts_of), using(crate::proofs::NameLemmas::writable))]
fn written(
    alloc: Global,
    program: Program,
    topo: &[u8],
    template: &[u8],
    seed: u64,
) -> Result<(Program, Bytes), NoMemory>
    requires program { IsProgram program }
    requires topo { length topo.now ≤ TOPOLOGY_BYTES }
    requires template { length template.now ≤ TEMPLATE_BYTES }
    ensures program { IfOk result (λ both. both.0 ≡ program) }
    ensures file { IfOk result (λ both. both.1 ≡ image_file program topo.now template.now seed) }
{
    let symbols = symbols_of(alloc, &program)?;
    let plan = Plan {
        seed,
        topo: Bytes::copy_of(alloc, topo)?,
        template: Bytes::copy_of(alloc, template)?,
    };
    let Program {
        cases,
        masks,
        marks,
        text,
        tables,
    } = program;
    let parts = Parts {
        text,
        tables,
        plan,
        symbols,
    };
    let file = write_elf(alloc, &parts)?;
    let Parts {
        text,
        tables,
        plan: _,
        symbols: _,
    } = parts;
    let program = Program {
        cases,
        masks,
        marks,
        text,
        tables,
    };
    Ok((program, file))
}
