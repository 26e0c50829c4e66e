// The slots of each hart in each case.
ghost use Rattle.std.specs.Prelude.{◌≡◌, IfOk, map};
ghost use Rattle.tm_base.specs.Lists.{count_from};
ghost use Rattle.tm_rules_slot.specs.Teams.{harts_of};
ghost use Rattle.tm_topo.specs.Limits.{IsInRange};
ghost use Rattle.tm_rules.specs.Admitting as admitting;

use crate::slots::{one_slot, written_out};
use std::alloc::Global;
use tm_base::{List, NoMemory, Text};
use tm_plan_map::{AdmittedCase, SlotList};
use tm_rules_slot::is_in_team;
use tm_tmpl_types::{BodyDecl, CaseDecl};
use tm_topo::Topology;

// The cases of a template.
pub fn cases_of(
    alloc: Global,
    topo: &Topology,
    cases: &[CaseDecl],
) -> Result<List<AdmittedCase>, NoMemory>
    requires { IsInRange topo.now }
    ensures { IfOk result (λ all. all ≡ map (admitting.admitted_case topo.now) cases.now) }
{
    let mut all = List::new(alloc);
    for case in cases {
        all.push(case_of(alloc, topo, case)?)?;
    }
    Ok(all)
}

// A case with the slots of each hart.
fn case_of(alloc: Global, topo: &Topology, case: &CaseDecl) -> Result<AdmittedCase, NoMemory>
    requires { IsInRange topo.now }
    ensures { IfOk result (λ all. all ≡ admitting.admitted_case topo.now case.now) }
{
    let name = Text::copy_of(alloc, case.name.as_slice())?;
    let bodies = bodies_of(alloc, topo, case.bodies.as_slice())?;
    Ok(AdmittedCase { name, bodies })
}

// The slots of each hart, from its body in a case.
fn bodies_of(
    alloc: Global,
    topo: &Topology,
    bodies: &[BodyDecl],
) -> Result<List<SlotList>, NoMemory>
    requires { IsInRange topo.now }
    ensures { IfOk result (λ all. all ≡ map (admitting.hart_slots topo.now bodies.now)
        (count_from 0 (harts_of topo.now))) }
{
    let mut all = List::new(alloc);
    for h in 0..topo.cores * topo.threads {
        all.push(hart_slots(alloc, topo, bodies, h)?)?;
    }
    Ok(all)
}

// The slots of a hart: those of the first body whose team has it.
#[tactic(auto, unfolding(crate::specs::Admitting::hart_slots))]
fn hart_slots(
    alloc: Global,
    topo: &Topology,
    bodies: &[BodyDecl],
    h: u32,
) -> Result<SlotList, NoMemory>
    requires { IsInRange topo.now }
    ensures { IfOk result (λ slots. slots ≡ admitting.hart_slots topo.now bodies.now h) }
{
    for body in bodies {
        if is_in_team(topo, body.whom, h) {
            return written_out(alloc, body.slots.as_slice());
        }
    }
    one_slot(alloc)
}
