// The text of all harts.
ghost use Rattle.std.specs.Prelude.{◌≡◌, ◌∷◌, [], ◌++◌, IfOk, OnOk};
ghost use Rattle.tm_plan_map.specs.Map.{text_base};
ghost use Rattle.tm_plan_cases.specs.Shaped.{AreShaped};
ghost use Rattle.tm_pass_text.specs.Words.{text_words};
ghost use Rattle.tm_pass_text.specs.Hart.{blocks_of};
ghost use Rattle.tm_pass_place.specs.Built.{marks_in};

use crate::hart::{HartCode, hart_code};
use std::alloc::Global;
use tm_base::{List, NoMemory, Words};
use tm_plan_cases::{Cases, Marks};

/// The words of all harts, one hart's behind the other's, and the addresses of their marks.
#[derive(Drop)]
pub struct ProgramText {
    pub text: Words,
    pub marks: Marks,
}

/// The text of the built program of these cases, from the text's first address on, and its marks.
pub fn program_text(alloc: Global, cases: &Cases) -> Result<ProgramText, NoMemory>
    requires { AreShaped cases.now }
    ensures text { IfOk result (λ made. made.text
        ≡ text_words (blocks_of cases.now) cases.now 0 cases.now.harts text_base) }
    ensures marks { IfOk result (λ made. made.marks ≡ marks_in cases.now) }
{
    let mut made = no_text(alloc);
    let mut base = TEXT_BASE;
    for h in 0..cases.harts {
        let code = hart_code(alloc, cases, h, base)?;
        base += 4 * code.words.as_slice().len() as u64;
        append_hart(&mut made, &code)?;
    }
    Ok(made)
}

// The first address of the text.
const TEXT_BASE: u64 = 0x8000_0000;

// No words and no marks.
fn no_text(alloc: Global) -> ProgramText
    ensures text { result.text ≡ [] }
    ensures marks { result.marks ≡ record { starts = []; ends = []; exits = []; halts = [] } }
{
    ProgramText {
        text: Words::new(alloc),
        marks: Marks {
            starts: List::new(alloc),
            ends: List::new(alloc),
            exits: List::new(alloc),
            halts: List::new(alloc),
        },
    }
}

// The words and marks of one more hart. Without memory a part may have been appended.
fn append_hart(made: &mut ProgramText, code: &HartCode) -> Result<(), NoMemory>
    ensures text { OnOk result (made.new.text ≡ made.old.text ++ code.now.words) }
    ensures starts { OnOk result (made.new.marks.starts ≡ made.old.marks.starts ++ code.now.starts) }
    ensures ends { OnOk result (made.new.marks.ends ≡ made.old.marks.ends ++ code.now.ends) }
    ensures exits { OnOk result (made.new.marks.exits ≡ made.old.marks.exits ++ code.now.exit ∷ []) }
    ensures halts { OnOk result (made.new.marks.halts ≡ made.old.marks.halts ++ code.now.halt ∷ []) }
{
    made.text.append(code.words.as_slice())?;
    append_all(&mut made.marks.starts, code.starts.as_slice())?;
    append_all(&mut made.marks.ends, code.ends.as_slice())?;
    made.marks.exits.push(code.exit)?;
    made.marks.halts.push(code.halt)
}

fn append_all(out: &mut List<u64>, numbers: &[u64]) -> Result<(), NoMemory>
    ensures { OnOk result (out.new ≡ out.old ++ numbers.now) }
{
    for n in numbers {
        out.push(*n)?;
    }
    Ok(())
}
