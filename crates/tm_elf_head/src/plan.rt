// The plan.
ghost use Rattle.std.specs.Prelude.{◌≡◌, ◌≤◌, length, IfOk, IsTrue};
ghost use Rattle.tm_elf_head.specs.PartFaults.{has_plan as with_plan, is_plan as plan_bytes, plan_of};

use crate::difference::differ;
use crate::numbers::{long_at, part_at, word_at};
use crate::spans::{headers_at, section};
use std::alloc::Global;
use tm_base::{Bytes, IMAGE_VERSION, NoMemory, TEMPLATE_BYTES, TOPOLOGY_BYTES};
use tm_elf_write::{Plan, plan_mark};

// The magic, the seed and two lengths.
const PLAN_HEAD: usize = 24;

/// Whether section 4 holds a plan.
#[tactic(auto, unfolding(crate::specs::PartFaults::has_plan))]
pub fn has_plan(bytes: &[u8]) -> bool
    requires { 744 ≤ length bytes.now }
    ensures { result ≡ with_plan bytes.now }
{
    let headers = headers_at(bytes);
    if word_at(bytes, headers + (64 * 4 + 4)) != 1 {
        return false;
    }
    let span = section(bytes, 4);
    if !span.ends_by(headers as u64) {
        return false;
    }
    is_plan(span.of(bytes))
}

// Whether bytes are a plan.
#[tactic(auto, unfolding(crate::specs::PartFaults::is_plan))]
fn is_plan(bytes: &[u8]) -> bool
    ensures { result ≡ plan_bytes bytes.now }
{
    if bytes.len() < PLAN_HEAD {
        return false;
    }
    if differ(part_at(bytes, 0, 8), plan_mark(IMAGE_VERSION)) {
        return false;
    }
    let topo = word_at(bytes, 16) as usize;
    let template = word_at(bytes, 20) as usize;
    if topo as u64 > TOPOLOGY_BYTES {
        return false;
    }
    if template as u64 > TEMPLATE_BYTES {
        return false;
    }
    PLAN_HEAD + topo + template == bytes.len()
}

/// The plan that bytes are.
#[tactic(auto, unfolding(crate::specs::PartFaults::is_plan, crate::specs::PartFaults::plan_of))]
pub fn read_plan(alloc: Global, bytes: &[u8]) -> Result<Plan, NoMemory>
    requires { IsTrue (plan_bytes bytes.now) }
    ensures { IfOk result (λ plan. plan ≡ plan_of bytes.now) }
{
    let len = word_at(bytes, 16) as usize;
    let mut topo = Bytes::new(alloc);
    topo.append(part_at(bytes, PLAN_HEAD, len))?;
    let mut template = Bytes::new(alloc);
    template.append(&bytes[PLAN_HEAD + len..])?;
    Ok(Plan {
        seed: long_at(bytes, 8),
        topo,
        template,
    })
}
