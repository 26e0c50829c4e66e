// Which bytes of the windows are shared.
ghost use Rattle.std.specs.Prelude.{◌≡◌, All};
ghost use Rattle.tm_base.specs.Lists.{any};
ghost use Rattle.tm_plan_cases.specs.Collected.{declares as window_declares, is_declared as declared};
ghost use Rattle.tm_plan_cases.specs.Shaped.{IsShapedWindow};

use tm_plan_cases::Cases;
use tm_plan_map::{Window, window_base};

// Whether an address is in a declared line of a window.
#[tactic(auto, unfolding(tm_plan_map::specs::Map::window_at, tm_plan_map::specs::Map::windows_base))]
fn declares(line: u32, addr: u64, window: &Window) -> bool
    requires { IsShapedWindow line window.now }
    ensures { result ≡ window_declares line addr window.now }
{
    let base = window_base(window.number);
    base <= addr && addr < base + u64::from(window.lines * line)
}

fn any_declares(line: u32, addr: u64, windows: &[Window]) -> bool
    requires { All (IsShapedWindow line) windows.now }
    ensures { result ≡ any (window_declares line addr) windows.now }
{
    let [window, more @ ..] = windows else {
        return false;
    };
    declares(line, addr, window) || any_declares(line, addr, more)
}

/// Whether `addr` is a byte of a declared line. The windows are those of shaped cases.
#[tactic(auto, unfolding(tm_plan_cases::specs::Collected::is_declared))]
pub fn is_declared(cases: &Cases, addr: u64) -> bool
    requires { All (IsShapedWindow cases.now.line) cases.now.windows }
    ensures { result ≡ declared cases.now addr }
{
    any_declares(cases.line, addr, cases.windows.as_slice())
}
