// Laws over the definitions, each as the contract of a function that does nothing.
ghost use Rattle.std.specs.Prelude.{◌≡◌, None};
ghost use Rattle.tm_topo.specs.Limits.{IsInRange};
ghost use Rattle.tm_rules_first.specs.Rules.{broken_rule};
ghost use Rattle.tm_place.specs.Ruled.{IsRuled};
ghost use Rattle.tm_rules.specs.Admitting.{admitted_of};
ghost use Rattle.tm_rules.specs.Laws.{LinesPass, WeightsPass};

use tm_place::Placement;
use tm_tmpl_types::Template;
use tm_topo::Topology;

/// The form of a template that breaks no rule is one that no rule refuses, whether or not there is memory for it.
pub fn ruled(t: &Template, topo: &Topology)
    requires { IsInRange topo.now }
    ensures { broken_rule topo.now t.now ≡ None → IsRuled (admitted_of topo.now t.now) }
{
    let _ = &t.passes;
    let _ = &topo.line;
}

/// What may run isn't refused: ruled lines and ruled weights have no fault.
pub fn ruled_slots_pass(p: &Placement)
    ensures lines { LinesPass p.now }
    ensures weights { WeightsPass p.now }
{
    let _ = &p.part;
}
