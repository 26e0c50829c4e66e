ghost use Rattle.std.specs.Prelude.{◌<◌, ◌↔◌, ◌≡◌, ◌%◌, IsTrue};
ghost use Rattle.tm_place.specs.Sharing.{MayStore, MayLoad};
ghost use Rattle.tm_place.specs.Placed.{sharing_of};
ghost use Rattle.tm_place.specs.Allowed.{may_store_at, may_load_at};
ghost use Rattle.tm_table.specs.Row.{IsWidth};

use crate::placement::Placement;
use crate::spot::spot_of;
use tm_plan_map::Kind2;

/// Whether hart `h` may store `width` bytes at `addr`. `h` is below the harts, and `width` is 1, 2, 4 or 8.
pub fn may_store(p: &Placement, h: u32, addr: u64, width: u8) -> bool
    requires hart { h < p.now.harts }
    requires width { IsWidth width }
    ensures allowed { IsTrue result ↔ MayStore (sharing_of p.now) h addr width }
    ensures computed { result ≡ may_store_at p.now.harts p.now.line p.now.part p.now.shape h addr width }
{
    if addr % u64::from(width) != 0 {
        return false;
    }
    match spot_of(p, addr) {
        None => false,
        Some(spot) => match spot.window.kind {
            Kind2::True => true,
            Kind2::False => {
                let part = u64::from(p.part);
                let last = spot.byte + (u64::from(width) - 1);
                spot.byte / part == u64::from(h) && last / part == u64::from(h)
            }
            Kind2::Own => is_own_line(p, h, spot.line),
        },
    }
}

/// Whether hart `h` may load `width` bytes at `addr`. `h` is below the harts, and `width` is 1, 2, 4 or 8.
pub fn may_load(p: &Placement, h: u32, addr: u64, width: u8) -> bool
    requires hart { h < p.now.harts }
    requires width { IsWidth width }
    ensures allowed { IsTrue result ↔ MayLoad (sharing_of p.now) h addr width }
    ensures computed { result ≡ may_load_at p.now.harts p.now.line p.now.part p.now.shape h addr width }
{
    if addr % u64::from(width) != 0 {
        return false;
    }
    match spot_of(p, addr) {
        None => false,
        Some(spot) => match spot.window.kind {
            Kind2::True | Kind2::False => true,
            Kind2::Own => is_own_line(p, h, spot.line),
        },
    }
}

// Whether a line of an own window is hart h's.
fn is_own_line(p: &Placement, h: u32, line: u64) -> bool
    ensures { IsTrue result ↔ (line % p.now.harts ≡ h) }
{
    line % u64::from(p.harts) == u64::from(h)
}
