// The laws of samples, as contracts of functions that do nothing.
ghost use Rattle.tm_sample.specs.Small.{SmallBudget};
ghost use Rattle.tm_sample.specs.Texts.{sample_topology, sample_template, AreAccepted, AskForASample};

use tm_plan_cases::Cases;

/// The two texts of a sample are accepted, whatever its number.
#[tactic(auto, using(crate::proofs::Accepted::accepted))]
pub fn always_accepted(n: u64)
    ensures { AreAccepted (sample_topology n) (sample_template n) }
{
    let _ = n;
}

/// They ask for up to 4 harts, 4 passes, 8 cases and 12 lines.
pub fn always_small(n: u64)
    ensures { AskForASample (sample_topology n) (sample_template n) }
{
    let _ = n;
}

/// Cases with up to 4 harts and 4 passes, 8 cases and windows of 12 lines together have a budget within the events of a
/// run that doesn't say how many.
///
/// Asked: their shape.
pub fn small_budget(cases: &Cases)
    ensures { SmallBudget cases.now }
{
    let _ = cases;
}
