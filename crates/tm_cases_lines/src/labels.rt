// Labelled code: a branch over so many words, and a jump to itself.
ghost use Rattle.tm_table.specs.Words.{Fits};

use std::alloc::Global;
use tm_asm::{Code, CodeFault};
use tm_base::{Bytes, NoMemory, Words};
use tm_cases_book::{put, small};
use tm_table::{Instr, Op, decode};

/// A branch to the word so many words on, behind which nothing stands; for 0 a jump to itself.
pub fn code(alloc: Global, rest: &str, out: &mut Bytes) -> Result<(), NoMemory> {
    let Some(nop) = decode(0x13) else {
        return out.append(b"no such word");
    };
    let to = small(rest);
    let made = if to == 0 {
        to_itself(alloc)?
    } else {
        forward(alloc, nop, u64::from(to))?
    };
    match made {
        Ok(words) => put_ends(alloc, words.as_slice(), out),
        Err(fault) => put(out, format!(in alloc; "{fault:?}")),
    }
}

fn put_ends(alloc: Global, words: &[u32], out: &mut Bytes) -> Result<(), NoMemory> {
    let count = words.len();
    let first = words.first().copied().unwrap_or(0);
    let last = words.last().copied().unwrap_or(0);
    put(
        out,
        format!(in alloc; "{count} words, {first:#010x} to {last:#010x}"),
    )
}

fn forward(alloc: Global, nop: Instr, to: u64) -> Result<Result<Words, CodeFault>, NoMemory>
    requires { Fits nop }
{
    let mut code = Code::new(alloc);
    let label = code.fresh()?;
    code.branch(Op::Beq, 0, 0, label)?;
    for _ in 1..to {
        code.put(nop)?;
    }
    code.here(label);
    Ok(code.finish())
}

fn to_itself(alloc: Global) -> Result<Result<Words, CodeFault>, NoMemory> {
    let mut code = Code::new(alloc);
    let label = code.fresh()?;
    code.here(label);
    code.jump(0, label)?;
    Ok(code.finish())
}
