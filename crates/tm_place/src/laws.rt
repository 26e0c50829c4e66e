// Laws over the definitions, each as the contract of a function that does nothing.
ghost use Rattle.tm_place.specs.Laws.{OneStores, StoresAreLoads, PartsFit};
ghost use Rattle.tm_place.specs.Placed.{sharing_of};

use crate::placement::Placement;

/// No byte of a false or own window may be stored to by two harts. Who may store may load. The parts of all harts fit
/// in a line.
pub fn apart(p: &Placement)
    ensures one { OneStores (sharing_of p.now) }
    ensures loads { StoresAreLoads (sharing_of p.now) }
    ensures parts { PartsFit (sharing_of p.now) }
{
    let _ = &p.part;
}
