ghost use Rattle.std.specs.Prelude.{◌≡◌, ◌≤◌, ◌<◌, None};
ghost use Rattle.tm_place.specs.Placed.{sharing_of};
ghost use Rattle.tm_rules_slot.specs.Teams.{harts_of};
ghost use Rattle.tm_topo.specs.Limits.{IsInRange};
ghost use Rattle.tm_rules_slot.specs.Slots as rules;
ghost use Rattle.tm_rules_slot.specs.Laws.{IsRuledLine};

use crate::access::access_fault;
use tm_asm_line::parse_line;
use tm_base::MOST_SLOTS;
use tm_place::Placement;
use tm_plan_map::{is_access, is_barred, is_jump, is_product};
use tm_refusals::RuleFault;
use tm_table::{Instr, Op};
use tm_tmpl_types::Selector;
use tm_topo::Topology;

/// The first rule that an assembler line breaks in slot `slot` of the `slots` slots of a body, at most 256. The
/// placement is one of the topology's harts and lines.
#[tactic(auto, unfolding(crate::specs::Slots::emit_fault))]
pub fn emit_fault(
    p: &Placement,
    topo: &Topology,
    whom: Selector,
    slot: u32,
    slots: u32,
    line: &[u8],
) -> Option<RuleFault>
    requires system { IsInRange topo.now }
    requires harts { p.now.harts ≡ harts_of topo.now }
    requires line { p.now.line ≡ topo.now.line }
    requires slot { slot < slots }
    requires slots { slots ≤ MOST_SLOTS }
    ensures fault { result ≡ rules.emit_fault p.now.line p.now.part p.now.shape topo.now whom slot slots line.now }
    ensures ruled { result ≡ None → IsRuledLine (sharing_of p.now) topo.now whom slots slot line.now }
{
    match parse_line(line) {
        Ok(i) => instr_fault(p, topo, whom, slot, slots, i),
        Err(fault) => Some(RuleFault::Asm(fault)),
    }
}

/// The first rule that an instruction breaks.
fn instr_fault(
    p: &Placement,
    topo: &Topology,
    whom: Selector,
    slot: u32,
    slots: u32,
    i: Instr,
) -> Option<RuleFault>
    requires system { IsInRange topo.now }
    requires harts { p.now.harts ≡ harts_of topo.now }
    requires slots { slots ≤ MOST_SLOTS }
    requires slot { slot < slots }
    ensures { result ≡ rules.first (rules.emit_checks p.now.line p.now.part p.now.shape topo.now whom slot slots i) }
{
    if is_refused(i.op) {
        return Some(RuleFault::NotAllowed { name: i.op });
    }
    if let Some(fault) = register_fault(i) {
        return Some(fault);
    }
    if let Some(fault) = access_fault(p, topo, whom, i) {
        return Some(fault);
    }
    target_fault(slot, slots, i)
}

/// Whether an op is none that a stream may have.
fn is_refused(op: Op) -> bool
    ensures { result ≡ rules.is_refused op }
{
    is_barred(op) || is_product(op)
}

/// The first of the registers rd, rs1 and rs2 that may not stand there.
fn register_fault(i: Instr) -> Option<RuleFault>
    ensures { result ≡ rules.first (rules.register_checks i) }
{
    if i.rd > 27 {
        return Some(RuleFault::Register { x: i.rd });
    }
    if !is_source(i) {
        return Some(RuleFault::Register { x: i.rs1 });
    }
    if i.rs2 > 27 {
        return Some(RuleFault::Register { x: i.rs2 });
    }
    None
}

/// Whether rs1 may be the instruction's: the base of a window for a load or store, else one of x0 to x27.
fn is_source(i: Instr) -> bool
    ensures { result ≡ rules.is_source i }
{
    if is_access(i.op) {
        return matches!(i.rs1, 28..=30);
    }
    i.rs1 <= 27
}

/// The fault of a branch or JAL that doesn't go forward.
fn target_fault(slot: u32, slots: u32, i: Instr) -> Option<RuleFault>
    requires slots { slots ≤ MOST_SLOTS }
    requires slot { slot < slots }
    ensures { result ≡ rules.target_fault slot slots i }
{
    if is_jump(i.op) && !is_forward(slot, slots, i.imm) {
        return Some(RuleFault::Target {
            slot,
            offset: i.imm,
        });
    }
    None
}

/// Whether a jump by an offset in bytes goes to a later slot, or to the end.
fn is_forward(slot: u32, slots: u32, offset: i64) -> bool
    requires { slot ≤ slots }
    ensures { result ≡ rules.is_forward slot slots offset }
{
    if offset < 4 {
        return false;
    }
    if offset % 4 != 0 {
        return false;
    }
    offset / 4 <= i64::from(slots - slot)
}
