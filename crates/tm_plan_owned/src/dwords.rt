// The declared dwords that a hart collects.
ghost use Rattle.std.specs.Prelude.{◌≡◌, ◌+◌, ◌*◌, ◌/◌, ◌<◌, ◌≤◌, length, slice_index};
ghost use Rattle.tm_plan_cases.specs.Shaped.{AreShaped};
ghost use Rattle.tm_plan_cases.specs.Collected.{owned};
ghost use Rattle.tm_plan_owned.specs.Lines.{line_count, own_dwords};

use crate::lines::{dwords_of, line_addr, line_count, stride_of};
use tm_plan_cases::Cases;

// How many of them are in window `v`.
fn owned_in(cases: &Cases, h: u32, v: u32) -> u64
    requires shaped { AreShaped cases.now }
    requires mine { h < cases.now.harts }
    requires window { v < 3 }
    ensures is { result ≡ length (own_dwords cases.now h v) }
    ensures few { result ≤ 512 }
{
    u64::from(line_count(cases, h, v)) * u64::from(dwords_of(cases))
}

// The `j`-th of those in window `v`.
fn addr_in(cases: &Cases, h: u32, v: u32, j: u64) -> u64
    requires shaped { AreShaped cases.now }
    requires mine { h < cases.now.harts }
    requires window { v < 3 }
    requires some { j < length (own_dwords cases.now h v) }
    requires few { j < 512 }
    ensures { result ≡ slice_index (own_dwords cases.now h v) j }
{
    let n = u64::from(dwords_of(cases));
    line_addr(cases, h, v) + u64::from(stride_of(cases)) * (j / n) + 8 * (j % n)
}

/// How many declared dwords hart `h` collects.
pub fn owned(cases: &Cases, h: u32) -> u64
    requires shaped { AreShaped cases.now }
    requires mine { h < cases.now.harts }
    ensures is { result ≡ length (owned cases.now h) }
    ensures few { result ≤ 1536 }
{
    owned_in(cases, h, 0) + owned_in(cases, h, 1) + owned_in(cases, h, 2)
}

/// The address of the `j`-th of them, from 0, in address order.
pub fn owned_addr(cases: &Cases, h: u32, j: u64) -> u64
    requires shaped { AreShaped cases.now }
    requires mine { h < cases.now.harts }
    requires some { j < length (owned cases.now h) }
    ensures { result ≡ slice_index (owned cases.now h) j }
{
    let first = owned_in(cases, h, 0);
    if j < first {
        return addr_in(cases, h, 0, j);
    }
    let next = owned_in(cases, h, 1);
    if j < first + next {
        return addr_in(cases, h, 1, j - first);
    }
    addr_in(cases, h, 2, j - first - next)
}
