// How a case shares its windows.
ghost use Rattle.std.specs.Prelude.{◌≡◌, ◌<◌, ◌≤◌, ◌==◌, ℕ, find, length, IfSome};
ghost use Rattle.tm_place.specs.Placed.{sharing_of};
ghost use Rattle.tm_place.specs.Placing as placing;
ghost use Rattle.tm_place.specs.Ruled.{IsRuled, sharing_in};

use crate::choosing::choice;
use crate::drawing::{HOT_STREAM, draw};
use crate::placement::Placement;
use tm_base::{CASE_ROOM, WINDOWS};
use tm_plan_map::{Admitted, Window};

/// How case `c` of a ruled test shares its windows, with the hot lines that the seed draws.
pub fn place(a: &Admitted, seed: u64, c: u32) -> Placement
    requires ruled { IsRuled a.now }
    requires case { c < length a.now.cases }
    ensures harts { result.harts ≡ a.now.harts }
    ensures line { result.line ≡ a.now.line }
    ensures part { result.part ≡ a.now.part }
    ensures shape { result.shape ≡ placing.shape_of a.now.windows }
    ensures hot { result.hot ≡ placing.hot_lines seed c a.now.windows }
    ensures shared { (n : ℕ) → (sharing_of result).window n ≡ (sharing_in a.now).window n }
{
    let windows = a.windows.as_slice();
    let shape = [
        numbered(windows, 0),
        numbered(windows, 1),
        numbered(windows, 2),
    ];
    let hot = [
        hot_line(seed, c, 0, shape[0]),
        hot_line(seed, c, 1, shape[1]),
        hot_line(seed, c, 2, shape[2]),
    ];
    Placement {
        harts: a.harts,
        line: a.line,
        part: a.part,
        shape,
        hot,
    }
}

// The window with a number, where it is declared.
fn numbered(windows: &[Window], n: u32) -> Option<Window>
    ensures { result ≡ placing.numbered windows.now n }
{
    windows.iter().copied().find(|w| w.number == n)
}

// The hot line of window w in case c.
fn hot_line(seed: u64, c: u32, w: u32, window: Option<Window>) -> u32
    requires case { c < CASE_ROOM }
    requires window { w < WINDOWS }
    requires some { IfSome window (λ v. 1 ≤ v.lines) }
    ensures { result ≡ placing.hot_line seed c w window }
{
    match window {
        None => 0,
        Some(v) => choice(draw(seed, c, HOT_STREAM, w, 0), v.lines),
    }
}
