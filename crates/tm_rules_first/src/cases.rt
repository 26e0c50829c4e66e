// The rules of cases.
ghost use Rattle.std.specs.Prelude.{◌≡◌, [], length};
ghost use Rattle.std.specs.List.{list_any};
ghost use Rattle.std.specs.Str.{bytes_eq};
ghost use Rattle.tm_rules_slot.specs.Teams.{harts_of};
ghost use Rattle.tm_topo.specs.Limits.{IsInRange};
ghost use Rattle.tm_rules_slot.specs.Slots.{first};
ghost use Rattle.tm_rules_first.specs.Rules as rules;

use crate::RuleAt;
use crate::bodies::bodies_broken;
use tm_base::{IMAGE_VERSION, most_cases};
use tm_place::Placement;
use tm_refusals::RuleFault;
use tm_tmpl_types::CaseDecl;
use tm_topo::Topology;

// The first rule that the cases of a template break.
pub fn cases_broken(p: &Placement, topo: &Topology, cases: &[CaseDecl]) -> Option<RuleAt>
    requires system { IsInRange topo.now }
    requires harts { p.now.harts ≡ harts_of topo.now }
    requires line { p.now.line ≡ topo.now.line }
    ensures { result
        ≡ rules.first_of (rules.in_turn (rules.case_checks topo.now p.now.shape (length cases.now)) [] cases.now) }
{
    let count = cases.len() as u64;
    for (k, case) in cases.iter().enumerate() {
        if let Some(broken) = case_broken(p, topo, count, &cases[..k], case) {
            return Some(broken);
        }
    }
    None
}

// The first rule that a case breaks behind those before it, or one of its bodies.
#[tactic(auto, unfolding(crate::specs::Rules::case_checks))]
fn case_broken(
    p: &Placement,
    topo: &Topology,
    count: u64,
    before: &[CaseDecl],
    case: &CaseDecl,
) -> Option<RuleAt>
    requires system { IsInRange topo.now }
    requires harts { p.now.harts ≡ harts_of topo.now }
    requires line { p.now.line ≡ topo.now.line }
    ensures { result ≡ rules.first_of (rules.case_checks topo.now p.now.shape count before.now case.now) }
{
    if let Some(fault) = case_fault(count, before, case.name.as_slice()) {
        return Some(RuleAt {
            pos: case.at,
            fault,
        });
    }
    bodies_broken(p, topo, case.bodies.as_slice())
}

// The first rule that a case of a name breaks behind those before it, of so many in all.
#[tactic(auto, unfolding(crate::specs::Rules::case_rules))]
fn case_fault(count: u64, before: &[CaseDecl], name: &[u8]) -> Option<RuleFault>
    ensures { result ≡ first (rules.case_rules count before.now name.now) }
{
    if before.len() == most_cases(IMAGE_VERSION) as usize {
        return Some(RuleFault::Cases { n: count });
    }
    if is_named(before, name) {
        return Some(RuleFault::TwiceName);
    }
    None
}

// Whether one of some cases has a name.
fn is_named(cases: &[CaseDecl], name: &[u8]) -> bool
    ensures { result ≡ list_any (λ c. bytes_eq c.name name.now) cases.now }
{
    cases.iter().any(|case| case.name.as_slice() == name)
}
