// The image of a sample.
ghost use Rattle.std.specs.Prelude.{IfOk, ◌≤◌};
ghost use Rattle.tm_base.specs.declared.limits.TheConstants.{DEFAULT_EVENTS};
ghost use Rattle.tm_plan_cases.specs.Collected.{budget_of};
ghost use Rattle.tm_sample.specs.Texts.{sample_topology, sample_template};
ghost use Rattle.tm_top_owed.specs.Owed.{IsBuiltOf};

use std::alloc::Global;
use tm_base::NoMemory;
use tm_image_build::{Image, build};
use tm_refusals::BuildFault;
use tm_sample::laws::{always_accepted, always_small};
use tm_sample::sample_texts;

/// The image of the sample of a number, which is its seed too.
pub fn sample_image(alloc: Global, n: u64) -> Result<Image, NoMemory>
    ensures ok { IfOk result (λ image.
        IsBuiltOf (sample_topology n) (sample_template n) n image.program image.file) }
    ensures room { IfOk result (λ image. budget_of image.program.cases ≤ DEFAULT_EVENTS) }
{
    always_accepted(n);
    always_small(n);
    let (topo, template) = sample_texts(alloc, n)?;
    match build(alloc, topo.as_slice(), template.as_slice(), n) {
        Ok(image) => Ok(image),
        Err(BuildFault::NoMemory) => Err(NoMemory),
        Err(BuildFault::Input(_)) => unreachable!(),
    }
}
