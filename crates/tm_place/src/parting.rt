ghost use Rattle.std.specs.Prelude.{◌≡◌, ◌≤◌, IsTrue};
ghost use Rattle.tm_base.specs.Limits.{is_line_size};
ghost use Rattle.tm_place.specs.Numbers as numbers;

use tm_base::HART_ROOM;

/// The bytes of each line of a false window that one hart may store to. `line` is 32, 64 or 128, and `harts` is 1 to
/// 16.
pub fn part_size(line: u32, harts: u32) -> u32
    requires size { IsTrue (is_line_size line) }
    requires some { 1 ≤ harts }
    requires few { harts ≤ HART_ROOM }
    ensures value { result ≡ numbers.part_size line harts }
    ensures greatest { numbers.IsPart line harts result }
{
    1 << (line / harts).ilog2()
}
