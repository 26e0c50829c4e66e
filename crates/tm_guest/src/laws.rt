// Laws over the definitions, each as the contract of a function that does nothing.
ghost use Rattle.tm_guest.specs.Laws.{OneNextEvent, SoundHasBudget};

use tm_plan_cases::Program;

/// At a guest a hart has at most one next event, under any script.
pub fn one_next_event(program: &Program)
    ensures { OneNextEvent program.now }
{
    let _ = program;
}

/// A guest of a sound program has its budget where its limit is at least that, so that a run in round order ends with
/// all harts at halt.
///
/// Asked: a script that is accepted over the program's cases, as the one without lines is; and that no step so far is
/// an idle read, as before the first one.
pub fn sound_budget(program: &Program)
    ensures { SoundHasBudget program.now }
{
    let _ = program;
}
