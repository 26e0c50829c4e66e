ghost use Rattle.std.specs.Prelude.{◌≡◌, IfOk, IfErr, Some, None};
ghost use Rattle.tm_topo.specs.Limits.{IsInRange};
ghost use Rattle.tm_rules_first.specs.Rules.{broken_rule};
ghost use Rattle.tm_rules_first.specs.Windows.{windows_of};
ghost use Rattle.tm_place.specs.Ruled.{IsRuled};
ghost use Rattle.tm_rules.specs.Admitting as admitting;

use crate::bodies::cases_of;
use std::alloc::Global;
use tm_base::{List, NoMemory, Text};
use tm_place::part_size;
use tm_plan_map::{Admitted, Window};
use tm_refusals::{AdmitFault, RuleAt};
use tm_rules_first::{first_broken, window_of};
use tm_tmpl_types::{Template, WindowDecl};
use tm_topo::Topology;

/// The test that a template asks for on this topology, with the slots of each hart written out, or the first rule
/// that the template breaks.
/// The topology's numbers are within their limits, as those of one that was read.
pub fn admit(alloc: Global, t: &Template, topo: &Topology) -> Result<Admitted, AdmitFault>
    requires { IsInRange topo.now }
    ensures ok { IfOk result (λ a. a ≡ admitting.admitted_of topo.now t.now) }
    ensures admits { IfOk result (λ a. broken_rule topo.now t.now ≡ None) }
    ensures ruled { IfOk result IsRuled }
    ensures err { IfErr result (admitting.IsCause topo.now t.now) }
{
    if let Some(broken) = first_broken(t, topo) {
        return Err(AdmitFault::Rule(broken));
    }
    match admitted(alloc, t, topo) {
        Ok(admitted) => Ok(admitted),
        Err(NoMemory) => Err(AdmitFault::NoMemory),
    }
}

// The test that a template asks for, whatever rules it breaks.
#[tactic(auto, unfolding(crate::specs::Admitting::admitted_of))]
fn admitted(alloc: Global, t: &Template, topo: &Topology) -> Result<Admitted, NoMemory>
    requires { IsInRange topo.now }
    ensures { IfOk result (λ a. a ≡ admitting.admitted_of topo.now t.now) }
{
    let harts = topo.cores * topo.threads;
    let name = Text::copy_of(alloc, t.name.as_slice())?;
    let windows = all_windows(alloc, t.windows.as_slice())?;
    let cases = cases_of(alloc, topo, t.cases.as_slice())?;
    Ok(Admitted {
        name,
        harts,
        line: topo.line,
        part: part_size(topo.line, harts),
        bias: topo.bias,
        passes: t.passes,
        windows,
        cases,
    })
}

// The windows that statements declare.
fn all_windows(alloc: Global, windows: &[WindowDecl]) -> Result<List<Window>, NoMemory>
    ensures { IfOk result (λ all. all ≡ windows_of windows.now) }
{
    let mut all = List::new(alloc);
    for window in windows {
        all.push(window_of(*window))?;
    }
    Ok(all)
}
