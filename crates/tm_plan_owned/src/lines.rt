// The lines that a hart collects.
ghost use Rattle.std.specs.Prelude.{◌≡◌, ◌+◌, ◌<◌, ◌≤◌, ◌*◌, ◌/◌, ◌^◌};
ghost use Rattle.tm_plan_map.specs.Map.{windows_base};
ghost use Rattle.tm_plan_cases.specs.Shaped.{AreShaped};
ghost use Rattle.tm_plan_owned.specs.Lines.{lines_of, first_line, line_count, line_place};

use tm_plan_cases::Cases;
use tm_plan_map::Window;

// How many lines window `v` declares.
fn lines_of(v: u32, windows: &[Window]) -> u32
    ensures { result ≡ lines_of v windows.now }
{
    let [window, rest @ ..] = windows else {
        return 0;
    };
    if window.number == v {
        window.lines
    } else {
        lines_of(v, rest)
    }
}

// The first line of window `v` that is hart `h`'s.
#[tactic(auto, unfolding(crate::specs::Lines::first_line))]
fn first_line(cases: &Cases, h: u32, v: u32) -> u32
    requires shaped { AreShaped cases.now }
    requires mine { h < cases.now.harts }
    requires window { v < 3 }
    ensures is { result ≡ first_line cases.now h v }
    ensures below { result < cases.now.harts }
{
    (h + cases.harts - 2048 * v / cases.line % cases.harts) % cases.harts
}

/// How many declared lines of window `v`, below 3, are hart `h`'s.
#[tactic(auto, unfolding(crate::specs::Lines::line_count))]
pub fn line_count(cases: &Cases, h: u32, v: u32) -> u32
    requires shaped { AreShaped cases.now }
    requires mine { h < cases.now.harts }
    requires window { v < 3 }
    ensures is { result ≡ line_count cases.now h v }
    ensures few { result < 2048 }
{
    (lines_of(v, cases.windows.as_slice()) + cases.harts - 1 - first_line(cases, h, v))
        / cases.harts
}

/// How many bytes the first of them is behind the windows' first byte.
#[tactic(auto, unfolding(crate::specs::Lines::line_place))]
pub fn line_place(cases: &Cases, h: u32, v: u32) -> u64
    requires shaped { AreShaped cases.now }
    requires mine { h < cases.now.harts }
    requires window { v < 3 }
    ensures is { result ≡ line_place cases.now h v }
    ensures near { result ≤ 8192 }
{
    2048 * u64::from(v) + u64::from(cases.line) * u64::from(first_line(cases, h, v))
}

/// The address of the first of them.
#[tactic(auto, unfolding(tm_plan_map::specs::Map::windows_base))]
pub fn line_addr(cases: &Cases, h: u32, v: u32) -> u64
    requires shaped { AreShaped cases.now }
    requires mine { h < cases.now.harts }
    requires window { v < 3 }
    ensures is { result ≡ windows_base + line_place cases.now h v }
    ensures near { result < 2 ^ 32 }
{
    0x80E8_0000 + line_place(cases, h, v)
}

/// The dwords of a line.
#[tactic(auto, using(crate::proofs::Reach::line_most))]
pub fn dwords_of(cases: &Cases) -> u16
    requires { AreShaped cases.now }
    ensures is { result ≡ cases.now.line / 8 }
    ensures few { result ≤ 16 }
{
    (cases.line / 8) as u16
}

/// The bytes of a line.
#[tactic(auto, using(crate::proofs::Reach::line_most))]
pub fn bytes_of(cases: &Cases) -> u16
    requires { AreShaped cases.now }
    ensures is { result ≡ cases.now.line }
    ensures few { result ≤ 128 }
{
    cases.line as u16
}

/// How many bytes it is from a line of a hart to its next.
#[tactic(auto, using(crate::proofs::Reach::stride_most))]
pub fn stride_of(cases: &Cases) -> u16
    requires { AreShaped cases.now }
    ensures is { result ≡ cases.now.line * cases.now.harts }
    ensures few { result ≤ 2048 }
{
    (cases.line * cases.harts) as u16
}
