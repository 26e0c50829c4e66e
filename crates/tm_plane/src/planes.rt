// Planes: words with one bit for each byte of the windows.
ghost use Rattle.std.specs.Prelude.{◌≡◌, ℕ, ◌↔◌, ◌||◌, ◌&&◌, not, IsTrue};
ghost use Rattle.tm_plan_map.specs.Map.{within};
ghost use Rattle.tm_base.specs.Lists.{any, count_from};
ghost use Rattle.tm_plane.specs.Plane.{in_plane, IsNear, Spans, Overwritten};

use crate::words::{meets, overwritten, run, word_without};
use tm_plan_map::{WINDOWS_BYTES, window_base};

/// The words of a plane, each of 64 bits.
pub const PLANE_WORDS: usize = 96;

/// One bit for each byte of the windows.
pub type Plane = [u64; PLANE_WORDS];

/// Whether the byte at `addr` is in the plane. A byte outside the windows is in none.
#[tactic(auto, unfolding(tm_plan_map::specs::Map::window_at, tm_plan_map::specs::Map::windows_size))]
pub fn has(plane: &Plane, addr: u64) -> bool
    ensures { result ≡ in_plane plane.now addr }
{
    let base = window_base(0);
    if addr < base {
        return false;
    }
    let q = addr - base;
    if q >= WINDOWS_BYTES {
        return false;
    }
    plane[(q / 64) as usize] >> (q % 64) & 1 == 1
}

// Which element of a plane has the bytes of an access, and which of its bits they are.
#[tactic(auto, unfolding(tm_plan_map::specs::Map::window_at, tm_plan_map::specs::Map::windows_size))]
fn span(addr: u64, width: u8) -> (usize, u64)
    requires { IsNear addr width }
    ensures { Spans addr width result.0 result.1 }
{
    let q = addr - window_base(0);
    ((q / 64) as usize, run((q % 64) as u32, width))
}

/// Whether the plane has one of the bytes of an access.
pub fn has_any(plane: &Plane, addr: u64, width: u8) -> bool
    requires { IsNear addr width }
    ensures { result ≡ any (in_plane plane.now) (count_from addr width) }
{
    let (e, bits) = span(addr, width);
    meets(plane[e], bits)
}

/// Puts the bytes of an access into the plane.
pub fn put(plane: &mut Plane, addr: u64, width: u8)
    requires { IsNear addr width }
    ensures { (b : ℕ) → in_plane plane.new b ≡ (in_plane plane.old b || within addr width b) }
{
    let (e, bits) = span(addr, width);
    plane[e] = plane[e] | bits;
}

/// What the plane becomes where those bytes of an access are written that are in `own`: they come in where `marks`
/// says so, and else they go, but where `covered` says that the write may be skipped.
pub fn overwrite(plane: &mut Plane, own: &Plane, addr: u64, width: u8, marks: bool, covered: bool)
    requires { IsNear addr width }
    ensures { (b : ℕ) → IsTrue (in_plane plane.new b)
        ↔ Overwritten (IsTrue (in_plane own.now b) × IsTrue (within addr width b))
        (IsTrue (in_plane plane.old b)) marks covered }
{
    let (e, bits) = span(addr, width);
    plane[e] = overwritten(plane[e], own[e] & bits, marks, covered);
}

/// The bytes that are in one of two planes.
pub fn union(x: &Plane, y: &Plane) -> Plane
    ensures { (b : ℕ) → in_plane result b ≡ (in_plane x.now b || in_plane y.now b) }
{
    let mut out = [0u64; PLANE_WORDS];
    for e in 0..PLANE_WORDS {
        out[e] = x[e] | y[e];
    }
    out
}

/// The bytes that are in the first of two planes alone.
pub fn without(x: &Plane, y: &Plane) -> Plane
    ensures { (b : ℕ) → in_plane result b ≡ (in_plane x.now b && not (in_plane y.now b)) }
{
    let mut out = [0u64; PLANE_WORDS];
    for e in 0..PLANE_WORDS {
        out[e] = word_without(x[e], y[e]);
    }
    out
}

/// The bytes of `before`, and those of `mine` that are in one of two other planes.
pub fn spoiled(before: &Plane, mine: &Plane, others: &Plane, held: &Plane) -> Plane
    ensures { (b : ℕ) → in_plane result b
        ≡ (in_plane before.now b || (in_plane mine.now b && (in_plane others.now b || in_plane held.now b))) }
{
    let mut out = [0u64; PLANE_WORDS];
    for e in 0..PLANE_WORDS {
        out[e] = before[e] | mine[e] & (others[e] | held[e]);
    }
    out
}
