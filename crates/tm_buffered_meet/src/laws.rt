// Laws over the definitions, each as the contract of a function that does nothing.
ghost use Rattle.tm_buffered_meet.specs.Laws.{IdleWaitsHere, NoneAheadHere, SignalsLand, SomeGoesOnHere};

use tm_plan_cases::Program;

/// In each state of a buffered run a hart's signals are in memory, all but the last at most; that one waits as the
/// oldest of its buffer, and may drain. No hart is in a later phase than the signals of all others in memory, and an
/// idle read is made by a hart that waits for such a signal.
///
/// Asked: harts that meet, which their courses give (`course_meets` of tm_memory).
pub fn landing(program: &Program)
    ensures land { SignalsLand program.now }
    ensures ahead { NoneAheadHere program.now }
    ensures idle { IdleWaitsHere program.now }
{
    let _ = program;
}

/// In each state of a buffered run, where some hart isn't at halt, some such hart either doesn't wait, or waits for a
/// signal that was made and may drain.
///
/// Asked: harts that meet.
pub fn someone_goes(program: &Program)
    ensures { SomeGoesOnHere program.now }
{
    let _ = program;
}
