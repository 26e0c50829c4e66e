// Laws over the definitions, each as the contract of a function that does nothing.
ghost use Rattle.std.specs.Prelude.{◌≡◌, ◌↔◌, Some, None};
ghost use Rattle.tm_rules_first.specs.Rules as rules;

use crate::RuleAt;
use tm_tmpl_types::Template;
use tm_topo::Topology;

/// A broken rule is named exactly where it is broken and none before it is; none is named exactly where none is broken.
pub fn first(t: &Template, topo: &Topology)
    ensures some { (r : RuleAt) → (rules.broken_rule topo.now t.now ≡ Some r)
        ↔ rules.IsFirst (rules.checks_of topo.now t.now) r }
    ensures none { (rules.broken_rule topo.now t.now ≡ None) ↔ rules.NoneBroken (rules.checks_of topo.now t.now) }
{
    let _ = &t.passes;
    let _ = &topo.line;
}
