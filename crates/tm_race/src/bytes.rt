// The bytes of the windows that are checked in a case.
ghost use Rattle.std.specs.Prelude.{◌≡◌, ◌<◌, ◌&&◌, not, All, IfOk};
ghost use Rattle.tm_plan_cases.specs.Collected.{is_declared as declared};
ghost use Rattle.tm_plan_cases.specs.Shaped.{IsShapedWindow};
ghost use Rattle.tm_plane.specs.Plane.{in_plane};
ghost use Rattle.tm_race.specs.Masks.{EachIs, mark_of};

use std::alloc::Global;
use tm_base::{Bytes, NoMemory};
use tm_plan_cases::Cases;
use tm_plan_map::{WINDOWS_BYTES, window_base};
use tm_plane::{Plane, has, is_declared};

// Whether a byte is declared and isn't spoiled.
fn is_unspoiled(cases: &Cases, spoil: &Plane, addr: u64) -> bool
    requires { All (IsShapedWindow cases.now.line) cases.now.windows }
    ensures { result ≡ (declared cases.now addr && not (in_plane spoil.now addr)) }
{
    is_declared(cases, addr) && !has(spoil, addr)
}

// The mark of byte q of the windows.
#[tactic(auto, unfolding(tm_plan_map::specs::Map::window_at, tm_plan_map::specs::Map::windows_base))]
fn byte_mark(cases: &Cases, spoil: &Plane, q: u64) -> u8
    requires windows { All (IsShapedWindow cases.now.line) cases.now.windows }
    requires place { q < WINDOWS_BYTES }
    ensures { result ≡ mark_of cases.now spoil.now q }
{
    if is_unspoiled(cases, spoil, window_base(0) + q) {
        255
    } else {
        0
    }
}

/// One byte for each byte of the windows: 255 where it is declared and not spoiled, else 0.
pub fn byte_marks(alloc: Global, cases: &Cases, spoil: &Plane) -> Result<Bytes, NoMemory>
    requires { All (IsShapedWindow cases.now.line) cases.now.windows }
    ensures { IfOk result (λ marks. EachIs (λ q mark. mark ≡ mark_of cases.now spoil.now q) WINDOWS_BYTES marks) }
{
    let mut marks = Bytes::new(alloc);
    for q in 0..WINDOWS_BYTES {
        marks.push(byte_mark(cases, spoil, q))?;
    }
    Ok(marks)
}
