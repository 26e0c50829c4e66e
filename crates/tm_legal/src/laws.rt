// Laws over the definitions, each as the contract of a function that does nothing.
ghost use Rattle.tm_legal.specs.Laws.{CourseIsTame, LegalRunsAreHalf, LegalStepsAreHalf, CourseRunsAreHalf};
ghost use Rattle.tm_legal.specs.Laws.{SoundRunsAreHalf, SoundPlainRuns};

use tm_plan_cases::Program;

/// A hart that keeps the course is tame: it comes to its marks in order, enters its streams with its first
/// registers, and outside them writes no byte of text and tables.
///
/// Asked: a formed program. Its shape is a clause of what builds it, its numbers' ranges are those of the types
/// of its fields, and where its marks and streams stand is a clause on its text.
pub fn course_is_tame(program: &Program)
    ensures { CourseIsTame program.now }
{
    let _ = program;
}

/// Each legal run is a half run, and so is what each tame hart does on it.
///
/// Asked: a formed program, and tame harts, which the words of each hart's code show on half runs.
pub fn legal_half(program: &Program)
    ensures runs { LegalRunsAreHalf program.now }
    ensures steps { LegalStepsAreHalf program.now }
{
    let _ = program;
}

/// Each legal run of a sound program is a half run, and so is each one of a program that keeps the course. Each plain
/// run of a sound program is legal, and so a half run too.
///
/// Asked beside a course: the program's shape, a clause of what builds it, and the ranges of numbers, which the types
/// of its fields give.
pub fn sound_half(program: &Program)
    ensures course { CourseRunsAreHalf program.now }
    ensures sound { SoundRunsAreHalf program.now }
    ensures plain { SoundPlainRuns program.now }
{
    let _ = program;
}
