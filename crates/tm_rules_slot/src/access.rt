// The rules of a load or store: its window, its place, and the harts that make it.
ghost use Rattle.std.specs.Prelude.{◌≡◌, ◌+◌, ◌*◌, ◌%◌, ◌==◌, ◌&&◌, ◌≤◌, ◌<◌, IsTrue, not, find};
ghost use Rattle.tm_plan_map.specs.Slots as slots;
ghost use Rattle.tm_plan_map.specs.Map.{window_at, within};
ghost use Rattle.tm_rules_slot.specs.Teams.{harts_of, team};
ghost use Rattle.tm_topo.specs.Limits.{IsInRange};
ghost use Rattle.tm_rules_slot.specs.Slots as rules;

use crate::teams::is_in_team;
use tm_base::{WINDOW_BYTES, WINDOWS};
use tm_place::{Placement, may_load, may_store};
use tm_plan_map::{is_access, load_width, slot_addr, store_width, window_base};
use tm_refusals::RuleFault;
use tm_table::Instr;
use tm_tmpl_types::Selector;
use tm_topo::Topology;

/// The first rule that a load's or store's access breaks. Its base register holds the base of a window.
pub fn access_fault(p: &Placement, topo: &Topology, whom: Selector, i: Instr) -> Option<RuleFault>
    requires system { IsInRange topo.now }
    requires harts { p.now.harts ≡ harts_of topo.now }
    requires base { IsTrue (slots.is_access i.op) → slots.IsBase i.rs1 }
    ensures { result ≡ rules.first (rules.access_checks p.now.line p.now.part p.now.shape topo.now whom i) }
{
    if !is_access(i.op) {
        return None;
    }
    let w = u32::from(i.rs1 - 28);
    let addr = slot_addr(i);
    match p.shape[w as usize] {
        None => Some(RuleFault::NoWindow { w }),
        Some(window) => {
            if !is_placed(p.line, w, width_of(i), addr, window.lines) {
                return Some(RuleFault::BadPlace { addr });
            }
            match stranger(p, topo, whom, i) {
                None => None,
                Some(hart) => Some(RuleFault::NotOwner { hart, addr }),
            }
        }
    }
}

/// The bytes that a load or store moves.
fn width_of(i: Instr) -> u8
    ensures { result ≡ rules.width_of i }
{
    load_width(i.op) + store_width(i.op)
}

/// The least hart of the body that may not make a load or store.
fn stranger(p: &Placement, topo: &Topology, whom: Selector, i: Instr) -> Option<u32>
    requires system { IsInRange topo.now }
    requires harts { p.now.harts ≡ harts_of topo.now }
    requires access { IsTrue (slots.is_access i.op) }
    requires base { slots.IsBase i.rs1 }
    ensures { result ≡ find (λ h. not (rules.may_access p.now.harts p.now.line p.now.part p.now.shape i h))
        (team topo.now whom) }
{
    for h in 0..p.harts {
        if is_in_team(topo, whom, h) && !may_access(p, i, h) {
            return Some(h);
        }
    }
    None
}

/// Whether hart `h` may make a load or store.
#[tactic(auto, unfolding(crate::specs::Slots::may_access))]
fn may_access(p: &Placement, i: Instr, h: u32) -> bool
    requires hart { h < p.now.harts }
    requires access { IsTrue (slots.is_access i.op) }
    requires base { slots.IsBase i.rs1 }
    ensures { result ≡ rules.may_access p.now.harts p.now.line p.now.part p.now.shape i h }
{
    let width = load_width(i.op);
    if width > 0 {
        may_load(p, h, slot_addr(i), width)
    } else {
        may_store(p, h, slot_addr(i), store_width(i.op))
    }
}

/// Whether an address is a multiple of `width`, in one of the first lines of window `w`.
fn is_placed(line: u32, w: u32, width: u8, addr: u64, lines: u32) -> bool
    requires window { w < WINDOWS }
    requires few { lines * line ≤ WINDOW_BYTES }
    requires some { 1 ≤ width }
    ensures { result ≡ ((addr % width == 0) && within (window_at w) (lines * line) addr) }
{
    if addr % u64::from(width) != 0 {
        return false;
    }
    let first = window_base(w);
    if addr < first {
        return false;
    }
    addr - first < u64::from(lines * line)
}
