// Laws over the definitions, each as the contract of a function that does nothing.
ghost use Rattle.tm_memory.specs.Laws.{CourseMeets, MemoryIsHalf, PlainIsMemory, PlainIsHalf, FaultedIsMemory};
ghost use Rattle.tm_memory.specs.Laws.{FaultedIsHalf, NothingIsPlain, LegalWritesRight, NoneStuck, AllUnstuck};
ghost use Rattle.tm_memory.specs.Laws.{NoLinesArePlain, CourseKeeps, SoundKeeps};

use tm_plan_cases::Program;

/// Harts that keep the course meet: on half runs each comes to its marks in order, enters its streams with its
/// first registers, writes outside streams only what it may, and keeps the barrier.
///
/// Asked: a formed program (its shape is a clause of what builds it, its numbers' ranges are those of the types
/// of its fields, where its marks and streams stand is a clause on its text), and each hart's course, which the
/// words of its code show.
pub fn course_meets(program: &Program)
    ensures { CourseMeets program.now }
{
    let _ = program;
}

/// A run in which support code reads what was written last by anybody, whatever is done inside streams to the
/// windows and to registers, is a half run. Each plain run is such a run, and so a half run.
///
/// Asked of the first: a formed program, whose harts outside streams write only what they may. Of plain runs:
/// harts that meet. All are of one hart's own steps on half runs alone, shown by the words of its code; nothing
/// of the barrier is used.
pub fn one_memory(program: &Program)
    ensures half { MemoryIsHalf program.now }
    ensures plain { PlainIsMemory program.now }
    ensures plain_half { PlainIsHalf program.now }
{
    let _ = program;
}

/// A run in which steps inside streams are changed (results, loaded and stored values xored, stores dropped,
/// branches turned) is a run of one memory too, and a half run. Where nothing is changed it is a plain run, and
/// each plain run is one.
///
/// Asked: harts that meet; and that what is xored to results has 64 bits, as each number of a script has.
pub fn faulted(program: &Program)
    ensures memory { FaultedIsMemory program.now }
    ensures half { FaultedIsHalf program.now }
    ensures nothing { NothingIsPlain program.now }
{
    let _ = program;
}

/// Where harts meet, each write of a legal run is of bytes that its hart may write in its phase, inside streams
/// too.
///
/// Asked: harts that meet, by `course_meets`.
pub fn legal_writes(program: &Program)
    ensures { LegalWritesRight program.now }
{
    let _ = program;
}

/// No hart gets stuck: on half runs, and so on legal runs, on plain runs and on runs of one memory, each hart
/// that isn't at halt has a next step, inside its streams too.
///
/// Asked: a formed program, each hart's order and first registers, or harts that meet; and that on half runs no
/// hart gets stuck outside streams and off halt, which the words of its code show.
pub fn unstuck(program: &Program)
    ensures half { NoneStuck program.now }
    ensures runs { AllUnstuck program.now }
{
    let _ = program;
}

/// Without lines a run under a script is a plain run, and each plain run is one.
pub fn no_lines(program: &Program)
    ensures { NoLinesArePlain program.now }
{
    let _ = program;
}

/// Whatever a script changes in streams, each run is a half run, so that verdicts on it are exact; and no hart gets
/// stuck.
///
/// Asked: numbers of 64 bits, as the type of lines gives; and a sound program, or a formed one whose harts keep the
/// course and on half runs don't get stuck outside streams.
pub fn scripts(program: &Program)
    ensures course { CourseKeeps program.now }
    ensures sound { SoundKeeps program.now }
{
    let _ = program;
}
