// The section that tells what an image was made from.
ghost use Rattle.std.specs.Prelude.{◌≡◌, ◌≤◌, IfOk, length};
ghost use Rattle.tm_base.specs.declared.limits.TheConstants.{TOPOLOGY_BYTES, TEMPLATE_BYTES};
ghost use Rattle.tm_elf_write.specs.Plan.{plan_bytes, plan_mark as mark_of};

use crate::fields::{Field, put_fields};
use crate::parts::Plan;
use std::alloc::Global;
use tm_base::{Bytes, IMAGE_VERSION, NoMemory};

/// The first bytes of a plan of version 1.
pub const PLAN_1: &[u8] = b"TMPLAN01";

/// The first bytes of a plan of a version.
pub fn plan_mark(version: u32) -> &'static [u8]
    ensures { result.now ≡ mark_of version }
{
    match version {
        _ => PLAN_1,
    }
}

/// The plan's bytes.
#[tactic(auto, using(crate::proofs::Lengths::length_plan), unfolding(crate::specs::Plan::plan_bytes))]
pub fn plan_of(alloc: Global, plan: &Plan) -> Result<Bytes, NoMemory>
    requires topo { length plan.now.topo ≤ TOPOLOGY_BYTES }
    requires template { length plan.now.template ≤ TEMPLATE_BYTES }
    ensures bytes { IfOk result (λ b. b ≡ plan_bytes plan.now) }
    ensures short { IfOk result (λ b. length b ≤ 2000000) }
{
    let topo = plan.topo.as_slice();
    let template = plan.template.as_slice();
    let mut out = Bytes::new(alloc);
    out.append(plan_mark(IMAGE_VERSION))?;
    put_fields(
        &mut out,
        &[
            Field::Long(plan.seed),
            Field::Word(topo.len() as u32),
            Field::Word(template.len() as u32),
        ],
    )?;
    out.append(topo)?;
    out.append(template)?;
    Ok(out)
}
