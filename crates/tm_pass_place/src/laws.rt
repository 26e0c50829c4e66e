// Laws over the definitions, each as the contract of a function that does nothing.
ghost use Rattle.tm_pass_place.specs.Built.{CasesAreBuilt};
ghost use Rattle.tm_pass_place.specs.Placed.{HartsArePlaced};
ghost use Rattle.tm_pass_place.specs.Range.{BuiltIsInRange};
ghost use Rattle.tm_pass_place.specs.Sound.{BuiltIsSound, BuiltKeeps};

use tm_plan_cases::{Cases, Masks, Program};

/// A built text has all parts of each hart's program in their places.
pub fn harts_are_placed(program: &Program)
    ensures { HartsArePlaced program.now }
{
    let _ = program;
}

/// A built program is laid, and each of its harts keeps what makes it sound.
pub fn built_keeps(program: &Program)
    ensures { BuiltKeeps program.now }
{
    let _ = program;
}

/// A built program whose masks are the checked sets is sound.
pub fn built_is_sound(program: &Program)
    ensures { BuiltIsSound program.now }
{
    let _ = program;
}

/// Shaped cases and masks that fit them have a built program.
pub fn cases_are_built(cases: &Cases, masks: &Masks)
    ensures { CasesAreBuilt cases.now masks.now }
{
    let _ = cases;
    let _ = masks;
}

/// The words of the built program of shaped cases have 32 bits, and its marks 64.
pub fn built_in_range(cases: &Cases, masks: &Masks)
    ensures { BuiltIsInRange cases.now masks.now }
{
    let _ = cases;
    let _ = masks;
}
