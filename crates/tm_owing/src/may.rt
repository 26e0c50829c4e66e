// Who may write a byte in a phase.
ghost use Rattle.std.specs.Prelude.{◌≡◌, ◌<◌, ◌≤◌, IsTrue, IfOk, IfSome, length, not, ◌&&◌, ◌==◌};
ghost use Rattle.std.specs.Prelude.{if◌then◌else◌};
ghost use Rattle.tm_race.specs.Masks.{AreStores};
ghost use Rattle.tm_race_walk.specs.Shapes.{IsOfShaped};
ghost use Rattle.tm_plan_cases.specs.Collected.{collector as collector_of};
ghost use Rattle.tm_plan_cases.specs.Shaped.{IsProgram};
ghost use Rattle.tm_world.specs.Place.{harts, case_count, is_window as is_window_of};
ghost use Rattle.tm_world.specs.Writers.{case_of_phase as case_at, may_write_running, may_write_window as window_may};
ghost use Rattle.tm_world.specs.Writers.{may_write as may, writers};
ghost use Rattle.tm_world.specs.Kinds.{another};
ghost use Rattle.tm_owing.specs.May.{ArePlanes, alone, is_many};

use crate::areas::{is_flag, is_private, is_verdict, is_window};
use std::alloc::Global;
use tm_base::{List, NoMemory};
use tm_plan_cases::{Case, Program};
use tm_plan_map::{FLAGS_ADDRESS, WINDOWS_ADDRESS};
use tm_plane::{Plane, has, is_declared};
use tm_race_walk::store_plane;

/// For each case and hart the bytes to which the hart has a store slot.
pub type Planes = List<List<Plane>>;

/// The planes of a program.
pub fn planes_of(alloc: Global, program: &Program) -> Result<Planes, NoMemory>
    requires { IsProgram program.now }
    ensures { IfOk result (λ planes. ArePlanes program.now planes) }
{
    let cases = program.cases.cases.as_slice();
    let mut planes = List::new(alloc);
    for case in cases {
        planes.push(store_planes(alloc, case)?)?;
    }
    Ok(planes)
}

/// The bytes to which each hart of a case has a store slot: one plane for each hart.
fn store_planes(alloc: Global, case: &Case) -> Result<List<Plane>, NoMemory>
    requires case { IsOfShaped case.now }
    requires few { length case.now.streams ≤ 8 }
    ensures { IfOk result (λ planes. AreStores case.now planes) }
{
    let count = case.streams.as_slice().len() as u32;
    let mut planes = List::new(alloc);
    for h in 0..count {
        planes.push(store_plane(case, h))?;
    }
    Ok(planes)
}

/// The hart that sets and saves a byte of the windows.
#[tactic(auto, unfolding(tm_plan_cases::specs::Collected::collector, tm_plan_map::specs::Map::windows_base))]
fn collector(program: &Program, b: u64) -> u64
    requires program { IsProgram program.now }
    requires window { IsTrue (is_window_of b) }
    ensures value { result ≡ collector_of program.now.cases b }
    ensures hart { result < harts program.now }
{
    (b - WINDOWS_ADDRESS) / u64::from(program.cases.line) % u64::from(program.cases.harts)
}

/// The case that is run in a phase.
fn case_of_phase(program: &Program, q: u64) -> Option<u64>
    requires { IsProgram program.now }
    ensures { result ≡ case_at program.now q }
{
    if q % 2 != 1 {
        return None;
    }
    let cases = program.cases.cases.as_slice().len() as u64;
    let passes = u64::from(program.cases.passes);
    if q / 2 >= cases * passes {
        return None;
    }
    Some(q / 2 / passes)
}

/// Whether hart `h` may write a byte while a case runs.
fn may_run(program: &Program, planes: &Planes, c: Option<u64>, h: u32, b: u64) -> bool
    requires program { IsProgram program.now }
    requires planes { ArePlanes program.now planes.now }
    requires hart { h < harts program.now }
    requires case { IfSome c (λ k. k < case_count program.now) }
    ensures { result ≡ may_write_running program.now c h b }
{
    let Some(c) = c else {
        return false;
    };
    if !is_declared(&program.cases, b) {
        return false;
    }
    let plane = &planes.as_slice()[c as usize].as_slice()[h as usize];
    has(plane, b)
}

/// Whether hart `h` may write a byte of the windows in a phase.
fn may_write_window(program: &Program, planes: &Planes, q: u64, h: u32, b: u64) -> bool
    requires program { IsProgram program.now }
    requires planes { ArePlanes program.now planes.now }
    requires hart { h < harts program.now }
    requires window { IsTrue (is_window_of b) }
    ensures { result ≡ window_may program.now q h b }
{
    if q % 2 == 0 {
        return collector(program, b) == u64::from(h);
    }
    may_run(program, planes, case_of_phase(program, q), h, b)
}

/// Whether hart `h` may write a byte in a phase.
pub fn may_write(program: &Program, planes: &Planes, q: u64, h: u32, b: u64) -> bool
    requires program { IsProgram program.now }
    requires planes { ArePlanes program.now planes.now }
    requires hart { h < harts program.now }
    ensures { result ≡ may program.now q h b }
{
    if is_window(b) {
        return may_write_window(program, planes, q, h, b);
    }
    if is_flag(h, b) {
        return true;
    }
    if is_verdict(program.cases.cases.as_slice().len() as u32, h, b) {
        return true;
    }
    is_private(h, b)
}

/// Whether another hart than `h` may write a byte in a phase. Text and tables have no writer, a private area has one,
/// and so has a byte of the windows in an even phase.
pub fn another_may(program: &Program, planes: &Planes, q: u64, h: u32, b: u64) -> bool
    requires program { IsProgram program.now }
    requires planes { ArePlanes program.now planes.now }
    requires hart { h < harts program.now }
    ensures { result ≡ another h (writers program.now q b) }
{
    if b < FLAGS_ADDRESS {
        return false;
    }
    if is_private(h, b) {
        return false;
    }
    if is_window(b) {
        return another_may_window(program, planes, q, h, b);
    }
    some_other_may(program, planes, q, h, b)
}

/// The same of a byte of the windows.
fn another_may_window(program: &Program, planes: &Planes, q: u64, h: u32, b: u64) -> bool
    requires program { IsProgram program.now }
    requires planes { ArePlanes program.now planes.now }
    requires hart { h < harts program.now }
    requires window { IsTrue (is_window_of b) }
    ensures { result ≡ another h (writers program.now q b) }
{
    if q % 2 == 0 {
        return collector(program, b) != u64::from(h);
    }
    some_other_may(program, planes, q, h, b)
}

/// The same, asked of each hart.
fn some_other_may(program: &Program, planes: &Planes, q: u64, h: u32, b: u64) -> bool
    requires program { IsProgram program.now }
    requires planes { ArePlanes program.now planes.now }
    ensures { result ≡ another h (writers program.now q b) }
{
    for g in 0..program.cases.harts {
        if other_may(program, planes, q, h, g, b) {
            return true;
        }
    }
    false
}

/// Whether hart `g` isn't hart `h`, and may write a byte in a phase.
fn other_may(program: &Program, planes: &Planes, q: u64, h: u32, g: u32, b: u64) -> bool
    requires program { IsProgram program.now }
    requires planes { ArePlanes program.now planes.now }
    requires hart { g < harts program.now }
    ensures { result ≡ (not (g == h) && may program.now q g b) }
{
    if g == h {
        return false;
    }
    may_write(program, planes, q, g, b)
}

/// Whether several harts may write a byte in a phase.
pub fn several_may(program: &Program, planes: &Planes, q: u64, b: u64) -> bool
    requires program { IsProgram program.now }
    requires planes { ArePlanes program.now planes.now }
    ensures { result ≡ is_many (writers program.now q b) }
{
    let mut count = 0u32;
    for g in 0..program.cases.harts {
        count += one_if(may_write(program, planes, q, g, b));
    }
    count >= 2
}

/// 1 where it holds.
fn one_if(holds: bool) -> u32
    ensures { result ≡ (if holds then 1 else 0) }
{
    if holds { 1 } else { 0 }
}

/// Whether hart `h` alone may write a byte, one of the windows, in a phase.
pub fn is_alone(program: &Program, planes: &Planes, q: u64, h: u32, b: u64) -> bool
    requires program { IsProgram program.now }
    requires planes { ArePlanes program.now planes.now }
    requires hart { h < harts program.now }
    ensures { result ≡ alone program.now q h b }
{
    if !is_window(b) {
        return false;
    }
    if another_may(program, planes, q, h, b) {
        return false;
    }
    may_write(program, planes, q, h, b)
}
