// Laws over the definitions, each as the contract of a function that does nothing.
ghost use Rattle.tm_pass_way.specs.Meets.{PartsKeep};
ghost use Rattle.tm_pass_way.specs.Judges.{FoundIsVerdict};
ghost use Rattle.tm_pass_way.specs.Pace.{LimitsAreServed};
ghost use Rattle.tm_pass_way.specs.Steps.{StepsMakeTurns};

use tm_plan_cases::Program;

/// A hart whose parts do what is stated keeps the course, writes its verdicts exactly, works within its limits and
/// doesn't get stuck.
pub fn parts_keep(program: &Program)
    ensures { PartsKeep program.now }
{
    let _ = program;
}

/// What a comparison finds in the save areas is the verdict, where these hold the end states that the log tells.
pub fn found_is_verdict(program: &Program)
    ensures { FoundIsVerdict program.now }
{
    let _ = program;
}

/// The limits that the parts' costs make up have room for them, and who keeps them keeps the pace.
pub fn limits_serve(program: &Program)
    ensures { LimitsAreServed program.now }
{
    let _ = program;
}

/// The blocks' steps, with the barrier as one of them, make up the parts of the way; streams need only lie clear.
pub fn steps_make_turns(program: &Program)
    ensures { StepsMakeTurns program.now }
{
    let _ = program;
}
