// Laws over the definitions, each as the contract of a function that does nothing.
ghost use Rattle.tm_world.specs.Kinds.{Legal, Half, Plain};
ghost use Rattle.tm_world.specs.Laws.{ActionsDiffer, PassesToPrefixes};

use tm_plan_cases::Program;

/// Each prefix of a legal run is a legal run, and the same holds of half runs and of plain runs.
pub fn prefixes(program: &Program)
    ensures legal { PassesToPrefixes (Legal program.now) }
    ensures half { PassesToPrefixes (Half program.now) }
    ensures plain { PassesToPrefixes (Plain program.now) }
{
    let _ = program;
}

/// An accepted script does at most one action of each kind to a step, so that the first number of a kind is the only
/// one.
pub fn actions_differ(program: &Program)
    ensures { ActionsDiffer program.now }
{
    let _ = program;
}
