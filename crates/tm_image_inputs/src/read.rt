// The two texts, read.
ghost use Rattle.std.specs.Prelude.{◌≡◌, ◌≤◌, Some, Ok, IfOk, IfErr, length};
ghost use Rattle.tm_base.specs.declared.limits.TheConstants.{TEMPLATE_BYTES};
ghost use Rattle.tm_topo.specs.Limits.{IsInRange};
ghost use Rattle.tm_rules_first.specs.Rules.{broken_rule};
ghost use Rattle.tm_place.specs.Ruled.{IsRuled};
ghost use Rattle.tm_refusals.specs.declared.inputs.InputFault.{InputFault as AFault};
ghost use Rattle.tm_image_inputs.specs.Inputs as inputs_;
ghost use Rattle.tm_refusals.specs.Named.{IsNamed};

use std::alloc::Global;
use tm_base::NoMemory;
use tm_lex::LexFault;
use tm_plan_map::Admitted;
use tm_refusals::{AdmitFault, BuildFault, InputFault};
use tm_rules::admit;
use tm_tmpl_read::parse_template;
use tm_tmpl_types::{Template, TmplFault};
use tm_topo::{TopoFault, Topology, parse_topology};

/// Why a topology is refused, if it is.
#[tactic(auto, unfolding(crate::specs::Inputs::topology_refusal))]
pub fn topology_fault(alloc: Global, topo: &[u8]) -> Result<Option<InputFault>, NoMemory>
    ensures fault { IfOk result (λ fault. fault ≡ inputs_.topology_refusal topo.now) }
    ensures named { IfOk result (λ fault. (f : AFault) → fault ≡ Some f → IsNamed f) }
{
    match parse_topology(alloc, topo) {
        Ok(_) => Ok(None),
        Err(TopoFault::NoMemory) => Err(NoMemory),
        Err(fault) => Ok(Some(InputFault::Topo(fault))),
    }
}

/// The test that a topology and a template ask for, or their first fault: the topology's, then that of the template's
/// grammar, then that of its rules.
#[tactic(auto, unfolding(crate::specs::Inputs::inputs))]
pub fn read_inputs(alloc: Global, topo: &[u8], template: &[u8]) -> Result<Admitted, BuildFault>
    requires { length template.now ≤ TEMPLATE_BYTES }
    ensures ok { IfOk result (λ a. inputs_.inputs topo.now template.now ≡ Ok a) }
    ensures ruled { IfOk result IsRuled }
    ensures err { IfErr result (λ fault. inputs_.IsFaultOf fault (inputs_.inputs topo.now template.now)) }
{
    match parse_topology(alloc, topo) {
        Ok(topo) => read_template(alloc, &topo, template),
        Err(TopoFault::NoMemory) => Err(BuildFault::NoMemory),
        Err(fault) => Err(BuildFault::Input(InputFault::Topo(fault))),
    }
}

// The test of a template, or the template's first fault.
#[tactic(auto, unfolding(crate::specs::Inputs::template_inputs))]
fn read_template(alloc: Global, topo: &Topology, template: &[u8]) -> Result<Admitted, BuildFault>
    requires range { IsInRange topo.now }
    requires size { length template.now ≤ TEMPLATE_BYTES }
    ensures ok { IfOk result (λ a. inputs_.template_inputs topo.now template.now ≡ Ok a) }
    ensures ruled { IfOk result IsRuled }
    ensures err { IfErr result (λ fault. inputs_.IsFaultOf fault (inputs_.template_inputs topo.now template.now)) }
{
    match parse_template(alloc, template) {
        Ok(t) => test_of(alloc, topo, &t),
        Err(TmplFault::NoMemory) => Err(BuildFault::NoMemory),
        Err(TmplFault::Lex(LexFault::NoMemory)) => Err(BuildFault::NoMemory),
        Err(fault) => Err(BuildFault::Input(InputFault::Tmpl(fault))),
    }
}

// The test that a template states, unless it breaks a rule.
fn test_of(alloc: Global, topo: &Topology, t: &Template) -> Result<Admitted, BuildFault>
    requires range { IsInRange topo.now }
    ensures ok { IfOk result (λ a. inputs_.unless_broken topo.now t.now (broken_rule topo.now t.now) ≡ Ok a) }
    ensures ruled { IfOk result IsRuled }
    ensures err { IfErr result (λ fault. inputs_.IsFaultOf fault
        (inputs_.unless_broken topo.now t.now (broken_rule topo.now t.now))) }
{
    match admit(alloc, t, topo) {
        Ok(a) => Ok(a),
        Err(AdmitFault::Rule(broken)) => Err(BuildFault::Input(InputFault::Rule(broken))),
        Err(AdmitFault::NoMemory) => Err(BuildFault::NoMemory),
    }
}
