// Where the windows of a template stand.
ghost use Rattle.std.specs.Prelude.{◌≡◌, ◌*◌, [], None};
ghost use Rattle.tm_rules_slot.specs.Teams.{harts_of};
ghost use Rattle.tm_topo.specs.Limits.{IsInRange};
ghost use Rattle.tm_place.specs.Placing as placing;
ghost use Rattle.tm_rules_first.specs.Windows as placed;
ghost use Rattle.tm_rules_first.specs.Rules as rules;

use tm_place::{Placement, part_size};
use tm_plan_map::{Kind2, Window};
use tm_tmpl_types::{Kind, WindowDecl};
use tm_topo::Topology;

// The placement of windows that break no rule, without hot lines.
pub fn placement(topo: &Topology, windows: &[WindowDecl]) -> Placement
    requires system { IsInRange topo.now }
    requires sound { rules.first_of (rules.in_turn (rules.window_checks topo.now) [] windows.now) ≡ None }
    ensures harts { result.harts ≡ harts_of topo.now }
    ensures line { result.line ≡ topo.now.line }
    ensures shape { result.shape ≡ placing.shape_of (placed.windows_of windows.now) }
{
    let harts = topo.cores * topo.threads;
    Placement {
        harts,
        line: topo.line,
        part: part_size(topo.line, harts),
        shape: [
            numbered(windows, 0),
            numbered(windows, 1),
            numbered(windows, 2),
        ],
        hot: [0; 3],
    }
}

// The first of some windows with a number.
fn numbered(windows: &[WindowDecl], number: u32) -> Option<Window>
    ensures { result ≡ placing.numbered (placed.windows_of windows.now) number }
{
    for window in windows {
        if window.number == number {
            return Some(window_of(*window));
        }
    }
    None
}

/// The window that a statement declares.
pub fn window_of(window: WindowDecl) -> Window
    ensures { result ≡ placed.window_of window }
{
    let kind = match window.kind {
        Kind::True => Kind2::True,
        Kind::False => Kind2::False,
        Kind::Own => Kind2::Own,
    };
    Window {
        number: window.number,
        kind,
        lines: window.lines,
    }
}
