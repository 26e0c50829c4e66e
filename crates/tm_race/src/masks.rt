// What of each case is checked.
ghost use Rattle.std.specs.Prelude.{◌≡◌, ◌<◌, length, IfOk};
ghost use Rattle.tm_plan_cases.specs.Shaped.{AreShaped, MasksFit};
ghost use Rattle.tm_world.specs.Checked.{AreChecked};
ghost use Rattle.tm_race.specs.Exact.{masks_of};
ghost use Rattle.tm_race.specs.Masks.{IsMask};

use crate::bytes::byte_marks;
use crate::harts::{case_of, over_hart};
use crate::planes::store_planes;
use std::alloc::Global;
use tm_base::{List, NoMemory, Words};
use tm_plan_cases::{CaseMask, Cases, Masks};
use tm_plane::PLANE_WORDS;

// The mask of case c.
fn case_mask(alloc: Global, cases: &Cases, c: usize) -> Result<CaseMask, NoMemory>
    requires shaped { AreShaped cases.now }
    requires case { c < length cases.now.cases }
    ensures { IfOk result (λ m. IsMask cases.now c m) }
{
    let planes = store_planes(alloc, case_of(cases, c))?;
    let mut regs = Words::new(alloc);
    let mut spoil = [0u64; PLANE_WORDS];
    for h in 0..cases.harts {
        let word = over_hart(&mut spoil, cases, planes.as_slice(), c, h);
        regs.push(word)?;
    }
    let bytes = byte_marks(alloc, cases, &spoil)?;
    Ok(CaseMask { regs, bytes })
}

/// The masks of shaped cases: one for each case, of exactly those registers and bytes that are checked in it. Equal
/// cases give equal masks. The only error is that there is no memory.
pub fn track(alloc: Global, cases: &Cases) -> Result<Masks, NoMemory>
    requires { AreShaped cases.now }
    ensures checked { IfOk result (λ m. AreChecked cases.now m) }
    ensures fit { IfOk result (λ m. MasksFit cases.now m) }
    ensures exact { IfOk result (λ m. m ≡ masks_of cases.now) }
{
    let mut masks = List::new(alloc);
    for c in 0..cases.cases.as_slice().len() {
        let mask = case_mask(alloc, cases, c)?;
        masks.push(mask)?;
    }
    Ok(Masks { cases: masks })
}
