// Laws over the definitions, each as the contract of a function that does nothing.
ghost use Rattle.tm_quiet.specs.Laws.{EndsThere, PassesAgree, Silent};

use tm_plan_cases::Program;

/// In any two passes of a round case on a legal run, each checked register and each checked byte that has end
/// values in both has the same, whatever the racing reads return and whichever branches they steer. For any
/// number of harts.
///
/// Asked: a program of the shape that a clause of its builder gives, with the ranges of the types of its fields;
/// masks that are exactly the checked sets, as race tracking makes them; and the course.
pub fn passes_agree(program: &Program)
    ensures { PassesAgree program.now }
{
    let _ = program;
}

/// On half runs a hart that keeps the course has all end values of a round case, in every pass, where it writes
/// its verdict: so no verdict is true because values are missing on both sides.
///
/// Asked: a formed program, as what builds it gives it, and the hart's course, which the words of its code show.
pub fn ends_there(program: &Program)
    ensures { EndsThere program.now }
{
    let _ = program;
}

/// So no round case is reported on a legal run: each write that covers a byte of a verdict cell is the write of
/// 0.
///
/// Asked: what `passes_agree` asks; and that each verdict that is written on half runs is the true one, which the
/// words that compare show.
pub fn silent(program: &Program)
    ensures { Silent program.now }
{
    let _ = program;
}
