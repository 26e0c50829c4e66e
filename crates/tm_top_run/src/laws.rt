// The law, as the contract of a function that does nothing.
ghost use Rattle.tm_top_run.specs.Laws.{NoReport};

use tm_plan_cases::Program;

/// On a legal run of a sound program, as each simulation under no script is, every verdict is 0, so that no case is
/// reported.
pub fn no_report(program: &Program)
    ensures { NoReport program.now }
{
    let _ = program;
}
