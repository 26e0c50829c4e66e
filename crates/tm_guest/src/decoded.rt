// The words of the text, decoded once.
ghost use Rattle.std.specs.Prelude.{IfOk};
ghost use Rattle.tm_guest.specs.Fields.{IsDecoded, AreDecoded};
ghost use Rattle.tm_table.specs.Words.{Fits};

use std::alloc::Global;
use tm_base::NoMemory;
use tm_table::{Instr, Op, decode};

/// A word and its instruction; of a word without one any instruction.
#[derive(Clone, Copy)]
pub struct Decoded {
    pub word: u32,
    pub instr: Instr,
}

/// The row of a word.
#[tactic(auto, unfolding(tm_plan_map::specs::Slots::instr_of))]
pub fn decoded_of(word: u32) -> Decoded
    ensures { IsDecoded word result }
{
    match decode(word) {
        Some(instr) => Decoded { word, instr },
        None => Decoded {
            word,
            instr: no_instr(),
        },
    }
}

#[tactic(auto, unfolding(tm_table::specs::Words::Fits))]
fn no_instr() -> Instr
    ensures { Fits result }
{
    Instr {
        op: Op::Fence,
        rd: 0,
        rs1: 0,
        rs2: 0,
        imm: 0,
    }
}

/// The rows of a text.
pub fn decoded_text(alloc: Global, text: &[u32]) -> Result<Vec<Decoded>, NoMemory>
    ensures { IfOk result (λ v. AreDecoded text.now v.items) }
{
    let mut decodes = match Vec::with_capacity(alloc, text.len()) {
        Ok(decodes) => decodes,
        Err(_) => return Err(NoMemory),
    };
    for word in text {
        match decodes.push(decoded_of(*word)) {
            Ok(()) => {}
            Err(_) => return Err(NoMemory),
        }
    }
    Ok(decodes)
}
