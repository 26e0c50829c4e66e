// The rules of a whole template.
ghost use Rattle.std.specs.Prelude.{◌≡◌};
ghost use Rattle.tm_topo.specs.Limits.{IsInRange};
ghost use Rattle.tm_rules_first.specs.Rules as rules;

use crate::RuleAt;
use crate::cases::cases_broken;
use crate::place::placement;
use crate::windows::windows_broken;
use tm_base::{LEAST_PASSES, MOST_PASSES};
use tm_refusals::RuleFault;
use tm_tmpl_types::Template;
use tm_topo::Topology;

/// The first rule that a template for this topology breaks, in text order, and in one statement in the order of its
/// rules; None where it breaks none. The topology's numbers are within their limits, as those that a text is read as.
pub fn first_broken(t: &Template, topo: &Topology) -> Option<RuleAt>
    requires { IsInRange topo.now }
    ensures { result ≡ rules.broken_rule topo.now t.now }
{
    if !are_passes(t.passes) {
        return Some(RuleAt {
            pos: t.passes_at,
            fault: RuleFault::Passes { n: t.passes },
        });
    }
    let windows = t.windows.as_slice();
    if let Some(broken) = windows_broken(topo, windows) {
        return Some(broken);
    }
    let p = placement(topo, windows);
    let cases = t.cases.as_slice();
    if let Some(broken) = cases_broken(&p, topo, cases) {
        return Some(broken);
    }
    if cases.is_empty() {
        return Some(RuleAt {
            pos: t.end,
            fault: RuleFault::Cases { n: 0 },
        });
    }
    None
}

// Whether there are as many passes as a test may have.
fn are_passes(passes: u32) -> bool
    ensures { result ≡ rules.are_passes passes }
{
    LEAST_PASSES <= passes && passes <= MOST_PASSES
}
