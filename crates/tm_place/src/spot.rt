ghost use Rattle.std.specs.Prelude.{ℕ, MatchOption};
ghost use Rattle.tm_plan_map.specs.declared.windows.Window.{Window};
ghost use Rattle.tm_place.specs.Sharing.{StandsAt};
ghost use Rattle.tm_place.specs.Placed.{sharing_of};

use crate::placement::Placement;
use tm_base::{WINDOW_BYTES, WINDOWS};
use tm_plan_map::{Window, window_base};

// A byte of a window: which window, which of its lines, and which byte of that.
#[derive(Clone, Copy)]
pub struct Spot {
    pub window: Window,
    pub line: u64,
    pub byte: u64,
}

// The byte of a declared line that stands at an address.
pub fn spot_of(p: &Placement, addr: u64) -> Option<Spot>
    ensures { MatchOption result ((v : Window) (j r : ℕ) → ¬ StandsAt (sharing_of p.now) addr v j r)
        (λ spot. StandsAt (sharing_of p.now) addr spot.window spot.line spot.byte) }
{
    let first = window_base(0);
    if addr < first {
        return None;
    }
    let number = (addr - first) / WINDOW_BYTES as u64;
    if WINDOWS as u64 <= number {
        return None;
    }
    match p.shape[number as usize] {
        None => None,
        Some(window) => {
            let place = (addr - first) % WINDOW_BYTES as u64;
            let size = u64::from(p.line);
            let line = place / size;
            if line < u64::from(window.lines) {
                Some(Spot {
                    window,
                    line,
                    byte: place % size,
                })
            } else {
                None
            }
        }
    }
}
