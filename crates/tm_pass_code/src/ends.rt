// The words before and behind all cases.
ghost use Rattle.std.specs.Prelude.{◌≡◌, ◌%◌, ◌<◌, ◌≤◌, ◌∷◌, ◌++◌, length, OnOk, IfOk};
ghost use Rattle.tm_plan_map.specs.Map.{private_at};
ghost use Rattle.tm_blocks_base.specs.Blocks.{constant};
ghost use Rattle.tm_table.specs.Words.{words_of};
ghost use Rattle.tm_barrier.specs.Words.{barrier};
ghost use Rattle.tm_pass_text.specs.Words.{gate};

use crate::parts::put_opening;
use crate::words::append_code;
use std::alloc::Global;
use tm_asm::Code;
use tm_barrier::put_barrier;
use tm_base::{NoMemory, Words};

/// Appends the gate, at which a hart with another number than `h` goes `n` bytes on from the third word, and the words
/// by which x31 becomes the private area. Without memory out is as it was.
pub fn append_opening(alloc: Global, out: &mut Words, h: u32, n: u32) -> Result<(), NoMemory>
    requires mine { h < 16 }
    requires even { n % 2 ≡ 0 }
    requires near { n ≤ 1048574 }
    ensures { OnOk result (out.new ≡ out.old ++ words_of (gate h n ++ constant 31 (private_at h))) }
{
    let mut code = Code::new(alloc);
    put_opening(&mut code, h, n)?;
    append_code(out, code)?;
    Ok(())
}

/// Appends the word at the halt mark, which leads to itself, and the barrier of hart `h`. Without memory a part may
/// have been appended.
pub fn append_ending(alloc: Global, out: &mut Words, h: u32, harts: u32) -> Result<(), NoMemory>
    requires mine { h < harts }
    requires few { harts ≤ 16 }
    ensures { OnOk result (out.new ≡ out.old ++ 0x0000006F ∷ words_of (barrier h harts)) }
{
    let mut code = Code::new(alloc);
    put_barrier(&mut code, h, harts)?;
    out.push(0x0000_006F)?;
    append_code(out, code)?;
    Ok(())
}

/// How many instructions the barrier of hart `h` has.
pub fn barrier_size(alloc: Global, h: u32, harts: u32) -> Result<u64, NoMemory>
    requires mine { h < harts }
    requires few { harts ≤ 16 }
    ensures is { IfOk result (λ n. n ≡ length (barrier h harts)) }
    ensures few { IfOk result (λ n. n ≤ 41) }
{
    let mut code = Code::new(alloc);
    put_barrier(&mut code, h, harts)?;
    Ok(code.len())
}
