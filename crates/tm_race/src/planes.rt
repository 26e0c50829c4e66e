// Where the harts of a case may store, as planes. Each stream is decoded once for all harts.
ghost use Rattle.std.specs.Prelude.{◌≡◌, ◌==◌, ◌<◌, ◌≤◌, ◌&&◌, ◌||◌, not, ℕ, length, slice_get, IfOk};
ghost use Rattle.tm_world.specs.Writers.{some_store_to};
ghost use Rattle.tm_plane.specs.Plane.{in_plane};
ghost use Rattle.tm_race_walk.specs.Shapes.{IsOfShaped, another_in};
ghost use Rattle.tm_race.specs.Masks.{AreStores};

use std::alloc::Global;
use tm_base::{HART_ROOM, List, NoMemory};
use tm_plan_cases::Case;
use tm_plane::{PLANE_WORDS, Plane, union};
use tm_race_walk::store_plane;

/// The bytes to which each hart of a case has a store slot: one plane for each hart.
pub fn store_planes(alloc: Global, case: &Case) -> Result<List<Plane>, NoMemory>
    requires case { IsOfShaped case.now }
    requires few { length case.now.streams ≤ HART_ROOM }
    ensures { IfOk result (λ planes. AreStores case.now planes) }
{
    let count = case.streams.as_slice().len() as u32;
    let mut planes = List::new(alloc);
    for h in 0..count {
        planes.push(store_plane(case, h))?;
    }
    Ok(planes)
}

/// Hart `h`'s plane.
pub fn plane_of<'a>(case: &Case, planes: &'a [Plane], h: u32) -> &'a Plane
    requires planes { AreStores case.now planes.now }
    requires hart { h < length case.now.streams }
    ensures { (b : ℕ) → in_plane result.now b ≡ some_store_to b (slice_get case.now.streams h) }
{
    let _ = case;
    &planes[h as usize]
}

// Bytes with the stores of hart g, if it isn't h.
fn with_other(out: &Plane, case: &Case, planes: &[Plane], h: u32, g: u32) -> Plane
    requires planes { AreStores case.now planes.now }
    requires hart { g < length case.now.streams }
    ensures { (b : ℕ) → in_plane result b
        ≡ (in_plane out.now b || (not (g == h) && some_store_to b (slice_get case.now.streams g))) }
{
    if g == h {
        return *out;
    }
    union(out, plane_of(case, planes, g))
}

/// The bytes with another may-writer than hart `h`.
pub fn others_of(case: &Case, planes: &[Plane], h: u32) -> Plane
    requires planes { AreStores case.now planes.now }
    requires few { length case.now.streams ≤ HART_ROOM }
    ensures { (b : ℕ) → in_plane result b ≡ another_in case.now h b }
{
    let count = case.streams.as_slice().len() as u32;
    let mut out = [0u64; PLANE_WORDS];
    for g in 0..count {
        out = with_other(&out, case, planes, h, g);
    }
    out
}
