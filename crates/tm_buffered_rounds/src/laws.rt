// A law over the definitions, as the contract of a function that does nothing.
ghost use Rattle.tm_buffered_rounds.specs.Laws.{DrawnBudget, SoundDrawnBudget};

use tm_plan_cases::Program;

/// A buffered run whose harts step in turn, round after round, and in which in each eighth round no hart steps while a
/// signal of its own waits to drain, has fewer steps than the budget and 64 more for each hart and phase of a case's
/// pass, as long as some hart isn't at halt.
///
/// Asked: harts that meet, which their courses give (`course_meets` of tm_memory), and that on legal runs each works
/// within its bound; or a sound program.
pub fn drawn_budget(program: &Program)
    ensures budget { DrawnBudget program.now }
    ensures sound { SoundDrawnBudget program.now }
{
    let _ = program;
}
