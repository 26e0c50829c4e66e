use crate::rule::RuleAt;
use tm_base::NoMemory;
use tm_tmpl_types::TmplFault;
use tm_topo::TopoFault;

/// Why the two input texts are refused. Want of memory doesn't stand here.
#[derive(Drop)]
pub enum InputFault {
    Topo(TopoFault),
    Tmpl(TmplFault),
    Rule(RuleAt),
}

/// Why nothing was built.
#[derive(Drop)]
pub enum BuildFault {
    Input(InputFault),
    NoMemory,
}

impl From<NoMemory> for BuildFault {
    ghost use Rattle.std.specs.Prelude.{◌≡◌};
    ghost use Rattle.tm_refusals.specs.declared.inputs.BuildFault.TheVariants as fault;

    ghost from_gives = { λ _ e. e ≡ fault.NoMemory };

    fn from(_: NoMemory) -> Self {
        BuildFault::NoMemory
    }
}
