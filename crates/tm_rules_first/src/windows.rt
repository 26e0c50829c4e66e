// The rules of windows.
ghost use Rattle.std.specs.Prelude.{◌≡◌, ◌==◌, [], ◌*◌, ◌≤◌};
ghost use Rattle.std.specs.List.{list_any};
ghost use Rattle.tm_rules_slot.specs.Teams.{harts_of};
ghost use Rattle.tm_topo.specs.Limits.{IsInRange};
ghost use Rattle.tm_rules_slot.specs.Slots.{first};
ghost use Rattle.tm_rules_first.specs.Rules as rules;

use crate::RuleAt;
use tm_base::{WINDOW_BYTES, WINDOWS};
use tm_refusals::RuleFault;
use tm_tmpl_types::{Kind, WindowDecl};
use tm_topo::Topology;

// The first rule that some windows break.
pub fn windows_broken(topo: &Topology, windows: &[WindowDecl]) -> Option<RuleAt>
    requires { IsInRange topo.now }
    ensures { result ≡ rules.first_of (rules.in_turn (rules.window_checks topo.now) [] windows.now) }
{
    for (k, window) in windows.iter().enumerate() {
        if let Some(fault) = window_fault(topo, &windows[..k], *window) {
            return Some(RuleAt {
                pos: window.at,
                fault,
            });
        }
    }
    None
}

// The first rule that a window breaks behind those before it.
#[tactic(auto, unfolding(crate::specs::Rules::window_rules))]
fn window_fault(topo: &Topology, before: &[WindowDecl], window: WindowDecl) -> Option<RuleFault>
    requires { IsInRange topo.now }
    ensures { result ≡ first (rules.window_rules topo.now before.now window) }
{
    if window.number >= WINDOWS {
        return Some(RuleFault::NoWindow { w: window.number });
    }
    if is_declared(before, window.number) {
        return Some(RuleFault::TwiceName);
    }
    if !has_lines(topo, window.kind, window.lines) {
        return Some(RuleFault::Lines { n: window.lines });
    }
    None
}

// Whether a window of a number is among some.
fn is_declared(windows: &[WindowDecl], number: u32) -> bool
    ensures { result ≡ list_any (λ v. v.number == number) windows.now }
{
    windows.iter().any(|window| window.number == number)
}

// Whether a window has the lines that it needs, and no more than its bytes hold.
fn has_lines(topo: &Topology, kind: Kind, lines: u32) -> bool
    requires { IsInRange topo.now }
    ensures { result ≡ rules.has_lines topo.now kind lines }
{
    if lines < 1 {
        return false;
    }
    if u64::from(lines) * u64::from(topo.line) > WINDOW_BYTES as u64 {
        return false;
    }
    has_each(kind, topo.cores * topo.threads, lines)
}

// Whether a window has a line for each hart, where it needs one.
fn has_each(kind: Kind, harts: u32, lines: u32) -> bool
    ensures { result ≡ rules.has_each kind harts lines }
{
    match kind {
        Kind::Own => harts <= lines,
        Kind::True | Kind::False => true,
    }
}
