// The words of one case with its stream.
ghost use Rattle.std.specs.Prelude.{◌≡◌, ◌+◌, ◌-◌, ◌%◌, ◌^◌, ◌<◌, ◌≤◌, ◌++◌, length, OnOk};
ghost use Rattle.tm_plan_cases.specs.Shaped.{AreShaped};
ghost use Rattle.tm_pass_code.specs.Plain.{words_of_case};

use crate::cases::{append_before, append_behind, collect_size, first_size};
use std::alloc::Global;
use tm_base::{NoMemory, Words};
use tm_plan_cases::Cases;

/// Appends the words of case `c` of hart `h` round its stream, where they begin at the address `at`, and the barrier
/// stands at the address `barrier`. Without memory a part may have been appended.
pub fn append_case(
    alloc: Global,
    out: &mut Words,
    cases: &Cases,
    h: u32,
    c: u32,
    stream: &[u32],
    at: u64,
    barrier: u64,
) -> Result<(), NoMemory>
    requires shaped { AreShaped cases.now }
    requires mine { h < cases.now.harts }
    requires case { c < 64 }
    requires few { length stream.now ≤ 256 }
    requires aligned { (at % 4 ≡ 0) × (barrier % 4 ≡ 0) }
    requires near { barrier ≤ at + 524288 }
    requires low { at < 2 ^ 33 }
    ensures { OnOk result (out.new ≡ out.old ++ words_of_case cases.now h c stream.now at barrier) }
{
    let n = stream.len() as u64;
    let first = first_size(alloc, cases, h, c)?;
    let collect = collect_size(alloc, cases, h)?;
    let to_first = distance(at + 4 * (1 + first), barrier);
    let to_second = distance(at + 4 * (74 + first + n), barrier);
    let back = 4 * (85 + first + n + collect) as u32;
    append_before(alloc, out, cases, h, c, to_first)?;
    out.append(stream)?;
    append_behind(alloc, out, cases, h, c, back, to_second)?;
    Ok(())
}

// How many bytes an address lies behind another; 0 where it doesn't.
fn distance(from: u64, to: u64) -> u32
    requires aligned { (from % 4 ≡ 0) × (to % 4 ≡ 0) }
    requires near { to ≤ from + 524288 }
    ensures is { result ≡ to - from }
    ensures even { result % 2 ≡ 0 }
    ensures near { result ≤ 1048574 }
{
    if to <= from {
        return 0;
    }
    (to - from) as u32
}
