// What one hart's stream of a case leaves unchecked.
ghost use Rattle.std.specs.Prelude.{◌≡◌, ◌<◌, ◌+◌, length, slice_get, Some};
ghost use Rattle.tm_plan_cases.specs.declared.cases.Case.{Case as TheCase};
ghost use Rattle.tm_plan_cases.specs.Shaped.{AreShaped};
ghost use Rattle.tm_race.specs.Masks.{AreStores, IsRegisterWord, IsSpoil};

use crate::planes::{others_of, plane_of};
use crate::registers::register_word;
use tm_plan_cases::{Case, Cases};
use tm_plane::{Plane, spoiled, without};
use tm_race_walk::end_of;

/// Case `c`.
pub fn case_of(cases: &Cases, c: usize) -> &Case
    requires { c < length cases.now.cases }
    ensures { slice_get cases.now.cases c ≡ Some result.now }
{
    &cases.cases.as_slice()[c]
}

/// Goes over hart `h`'s stream of case `c`, with the planes of its harts' stores. Gives the word of the hart's checked
/// registers, and puts into `spoil` the bytes that it keeps from being checked.
pub fn over_hart(spoil: &mut Plane, cases: &Cases, planes: &[Plane], c: usize, h: u32) -> u32
    requires shaped { AreShaped cases.now }
    requires case { c < length cases.now.cases }
    requires planes { (case : TheCase) → slice_get cases.now.cases c ≡ Some case → AreStores case planes.now }
    requires hart { h < cases.now.harts }
    requires spoil { IsSpoil cases.now c h spoil.old }
    ensures word { IsRegisterWord cases.now c h result }
    ensures spoil { IsSpoil cases.now c (h + 1) spoil.new }
{
    let case = case_of(cases, c);
    let mine = plane_of(case, planes, h);
    let others = others_of(case, planes, h);
    let end = end_of(case, h, &others, &without(mine, &others));
    *spoil = spoiled(spoil, mine, &others, &end.bytes);
    register_word(end.regs)
}
