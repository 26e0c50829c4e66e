// Laws over the definitions, each as the contract of a function that does nothing.
ghost use Rattle.tm_meet.specs.Laws.{FlagsCount, NoneAhead, IdleWaits, SomeGoesOn, PlainIsLegal, SettledIsLast};
ghost use Rattle.tm_meet.specs.Laws.{FirstBytesSettle, DwordsSet, CourseKept, HaltIsLast};

use tm_plan_cases::Program;

/// What is so in each state of a run of one memory, and so of a plain run and of one with faults in its streams,
/// whatever the interleaving. Each flag holds how often its hart has written it; no hart leaves a barrier before
/// all others have arrived at it; an idle read is made by a hart that waits; and harts never wait for each other
/// all at once.
///
/// Asked: harts that meet, which their courses give (`course_meets` of tm_memory).
pub fn meeting(program: &Program)
    ensures flags { FlagsCount program.now }
    ensures ahead { NoneAhead program.now }
    ensures idle { IdleWaits program.now }
    ensures goes { SomeGoesOn program.now }
{
    let _ = program;
}

/// Each plain run is legal, whatever its opening and its interleaving; and what a byte has settled to by a phase
/// that no hart is past is what was written there last.
///
/// Asked: harts that meet, which their courses give (`course_meets` of tm_memory).
pub fn plain_is_legal(program: &Program)
    ensures legal { PlainIsLegal program.now }
    ensures settled { SettledIsLast program.now }
{
    let _ = program;
}

/// Where a stream begins on a legal run, shared memory has settled to the first bytes of its round case; so the
/// course is kept by what each hart does on its own steps. Who sets the dwords that it collects sets their bytes.
///
/// Asked: harts that meet, or each hart's course. And of each hart on half runs: that before it signals in the
/// phase before a run phase it has set each byte that it collects, last of all in this phase, which the words
/// that set first bytes show; and that it enters no stream with the step at its exit mark, since support code
/// that counts the phase stands between. That step would still be one of the phase before, and without this the
/// law is false: a legal run owes nothing of the other harts there yet.
pub fn first_bytes(program: &Program)
    ensures settles { FirstBytesSettle program.now }
    ensures dwords { DwordsSet program.now }
    ensures course { CourseKept program.now }
{
    let _ = program;
}

/// On half runs a hart at halt is in the last phase.
///
/// Asked: harts that meet, which their courses give (`course_meets` of tm_memory).
pub fn halted(program: &Program)
    ensures { HaltIsLast program.now }
{
    let _ = program;
}
