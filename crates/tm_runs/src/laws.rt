// Laws over the definitions, each as the contract of a function that does nothing.
ghost use Rattle.tm_runs.specs.Shadow.{HalfRunsAreRuns};

use tm_plan_cases::Program;

/// What each hart does on a half run is a run of the one-hart machine, and the machine's state is the hart's.
pub fn half_runs(program: &Program)
    ensures { HalfRunsAreRuns program.now }
{
    let _ = program;
}
