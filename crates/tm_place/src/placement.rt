ghost use Rattle.tm_place.specs.Limits.{IsPlacement};

use tm_plan_map::Window;

/// How a case shares its windows: for so many harts, with lines of `line` bytes and parts of `part` bytes. `shape`
/// has window w at place w, and `hot` the number of its hot line, 0 where there is no window.
#[derive(Clone, Copy)]
pub struct Placement {
    pub harts: u32,
    pub line: u32,
    pub part: u32,
    pub shape: [Option<Window>; 3],
    pub hot: [u32; 3],
    pub ghost limits: { IsPlacement harts line part shape hot },
}
