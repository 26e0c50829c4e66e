// The image of a build's two texts.
ghost use Rattle.std.specs.Prelude.{◌≡◌, ◌≤◌, IfOk, IfErr, length};
ghost use Rattle.tm_image_inputs.specs.Inputs.{inputs};
ghost use Rattle.tm_top_owed.specs.Texts.{built_line};
ghost use Rattle.tm_top_owed.specs.Owed.{IsMadeOf};
ghost use Rattle.tm_top_build.specs.Steps.{ImageStop};

use crate::made::Made;
use std::alloc::Global;
use tm_base::{Bytes, NoMemory, TEMPLATE_BYTES, TOPOLOGY_BYTES, Text, push_decimal};
use tm_image_build::build;
use tm_plan_cases::Program;
use tm_refusals::{BuildFault, Role};
use tm_top_line::AnyFault;
use tm_top_owed::Stop;

/// The line that says what was built.
#[tactic(auto, unfolding(tm_top_owed::specs::Texts::built_line))]
fn line_of(alloc: Global, program: &Program, file: &[u8]) -> Result<Text, NoMemory>
    ensures { IfOk result (λ text. text ≡ built_line program.now file.now) }
{
    let mut text = Bytes::new(alloc);
    text.append(b"built: harts ")?;
    push_decimal(&mut text, u64::from(program.cases.harts))?;
    text.append(b", cases ")?;
    push_decimal(&mut text, program.cases.cases.as_slice().len() as u64)?;
    text.append(b", bytes ")?;
    push_decimal(&mut text, file.len() as u64)?;
    text.push(b'\n')?;
    Ok(text)
}

/// Builds the image of two texts.
pub fn image_of(alloc: Global, topo: &Bytes, template: &Bytes, seed: u64) -> Result<Made, Stop>
    requires topo { length topo.now ≤ TOPOLOGY_BYTES }
    requires template { length template.now ≤ TEMPLATE_BYTES }
    ensures ok { IfOk result (λ made. IsMadeOf topo.now template.now seed made.file made.line) }
    ensures err { IfErr result (λ stop. ImageStop stop (inputs topo.now template.now)) }
{
    let image = match build(alloc, topo.as_slice(), template.as_slice(), seed) {
        Ok(image) => image,
        Err(BuildFault::Input(fault)) => {
            return Err(Stop::Refused(Role::Template, AnyFault::Input(fault)));
        }
        Err(BuildFault::NoMemory) => return Err(Stop::NoMemory),
    };
    match line_of(alloc, &image.program, image.file.as_slice()) {
        Ok(line) => Ok(Made {
            file: image.file,
            line,
        }),
        Err(_) => Err(Stop::NoMemory),
    }
}
