// Laws over the definitions, each as the contract of a function that does nothing.
ghost use Rattle.tm_stays.specs.Laws.{EachStayShort, StaysShort, WorksLittle, EndsSoon, PassesAlike};
ghost use Rattle.tm_stays.specs.Laws.{StaysInPhase, LegalWritesAreRight};

use tm_plan_cases::Program;

/// On legal runs each stay in a stream takes at most as many steps as the stream has words; so do all stays
/// together in each pass; so a bound on the steps outside streams on half runs gives one on all steps.
///
/// Asked: a formed program and a tame hart (as for `legal_half` of tm_legal); and for the last two a bound on
/// half runs, which the words of the hart's code show.
pub fn short_stays(program: &Program)
    ensures stay { EachStayShort program.now }
    ensures short { StaysShort program.now }
    ensures work { WorksLittle program.now }
    ensures all { EndsSoon program.now }
{
    let _ = program;
}

/// In two passes of a case a stream without loads is left with the same registers, on any legal run.
///
/// Asked: a formed program and a tame hart; and that no word of the stream is a load, which is told by looking at
/// the words.
pub fn passes_alike(program: &Program)
    ensures { PassesAlike program.now }
{
    let _ = program;
}

/// On half runs a hart is inside a stream in run phases of its case alone, and on legal runs all writes are of
/// bytes that may be written.
///
/// Asked: a formed program; the order of marks, tame harts, and that outside streams each hart writes only what
/// it may, all of which the words of its code show on half runs.
pub fn legal_writes(program: &Program)
    ensures phase { StaysInPhase program.now }
    ensures writes { LegalWritesAreRight program.now }
{
    let _ = program;
}
