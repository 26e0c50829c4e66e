// The rules of a body's slots.
ghost use Rattle.std.specs.Prelude.{◌≡◌, ◌+◌, ◌≤◌, []};
ghost use Rattle.tm_rules_slot.specs.Teams.{harts_of};
ghost use Rattle.tm_topo.specs.Limits.{IsInRange};
ghost use Rattle.tm_rules_first.specs.Rules as rules;

use crate::RuleAt;
use tm_base::MOST_SLOTS;
use tm_place::Placement;
use tm_refusals::RuleFault;
use tm_rules_slot::{emit_fault, mix_fault};
use tm_tmpl_types::{Selector, SlotDecl, SlotText};
use tm_topo::Topology;

// How many slots statements stand for, counted up to the greatest u64.
pub fn slot_count(slots: &[SlotDecl]) -> u64
    ensures { result ≡ rules.slot_count slots.now }
{
    let mut count: u64 = 0;
    for slot in slots {
        count = count.saturating_add(u64::from(slots_in(&slot.what)));
    }
    count
}

// How many slots a statement stands for.
fn slots_in(what: &SlotText) -> u32
    ensures { result ≡ rules.slots_in what.now }
{
    match what {
        SlotText::Emit(_) => 1,
        SlotText::Mix { count, .. } => *count,
    }
}

// The first rule that the statements of a body of `len` slots break.
pub fn slots_broken(
    p: &Placement,
    topo: &Topology,
    whom: Selector,
    len: u32,
    slots: &[SlotDecl],
) -> Option<RuleAt>
    requires system { IsInRange topo.now }
    requires harts { p.now.harts ≡ harts_of topo.now }
    requires line { p.now.line ≡ topo.now.line }
    requires len { len ≡ rules.slot_count slots.now }
    requires few { len ≤ MOST_SLOTS }
    ensures { result ≡ rules.first_of (rules.in_turn (rules.slot_checks topo.now p.now.shape whom len) [] slots.now) }
{
    let mut at: u32 = 0;
    for slot in slots {
        if let Some(fault) = slot_fault(p, topo, whom, len, at, &slot.what) {
            return Some(RuleAt {
                pos: slot.at,
                fault,
            });
        }
        at += slots_in(&slot.what);
    }
    None
}

// The first rule that a statement of a body of `len` slots breaks, from slot `at` on.
#[tactic(auto, unfolding(crate::specs::Rules::slot_fault))]
fn slot_fault(
    p: &Placement,
    topo: &Topology,
    whom: Selector,
    len: u32,
    at: u32,
    what: &SlotText,
) -> Option<RuleFault>
    requires system { IsInRange topo.now }
    requires harts { p.now.harts ≡ harts_of topo.now }
    requires line { p.now.line ≡ topo.now.line }
    requires within { at + rules.slots_in what.now ≤ len }
    requires few { len ≤ MOST_SLOTS }
    ensures { result ≡ rules.slot_fault topo.now p.now.shape whom len at what.now }
{
    match what {
        SlotText::Emit(text) => emit_fault(p, topo, whom, at, len, text.as_slice()),
        SlotText::Mix {
            alu,
            load,
            store,
            branch,
            ..
        } => mix_fault(p, *alu, *load, *store, *branch),
    }
}
