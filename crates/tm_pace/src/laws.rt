// Laws over the definitions, each as the contract of a function that does nothing.
ghost use Rattle.tm_pace.specs.Laws.{PhasesEnd, PhasesAddUp, PaceBounds, PaceHolds, FaultedPaceHolds, QuietRunsEnd};

use tm_plan_cases::Program;

/// A hart never leaves the last phase; its work in each phase adds up, with the words of its streams, to all its
/// work on legal runs; so a hart that keeps a pace which fits keeps its bound, on runs of one memory too, and so
/// on runs with faults in their streams. And a
/// run without an idle read, each of whose harts keeps its bound of work, ends within the budget.
///
/// Asked: harts that meet, which their courses give (`course_meets` of tm_memory); of each hart on half runs that
/// its work outside streams keeps the pace and that it doesn't get stuck there, which the words of its code show;
/// that the pace fits, which is arithmetic over its four numbers; and for the budget at least one hart, by the
/// program's shape.
pub fn bound(program: &Program)
    ensures phases { PhasesEnd program.now }
    ensures sum { PhasesAddUp program.now }
    ensures pace { PaceBounds program.now }
    ensures memory { PaceHolds program.now }
    ensures faulted { FaultedPaceHolds program.now }
    ensures quiet { QuietRunsEnd program.now }
{
    let _ = program;
}
