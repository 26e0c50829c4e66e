// Instructions appended to code.
ghost use Rattle.std.specs.Prelude.{◌≡◌, [], ◌∷◌, OnOk};
ghost use Rattle.tm_table.specs.Words.{Fits};
ghost use Rattle.tm_asm.specs.Sheet.{puts, AllFit};

use tm_asm::Code;
use tm_base::NoMemory;
use tm_table::Instr;

// Appends an instruction.
#[tactic(auto, unfolding(tm_asm::specs::Sheet::puts))]
fn put(code: &mut Code, i: Instr) -> Result<(), NoMemory>
    requires { Fits i }
    ensures { OnOk result (code.new ≡ puts code.old (i ∷ [])) }
{
    code.put(i)
}

/// Appends instructions, each of which fits into a word. Without memory some may have been appended.
pub fn put_all(code: &mut Code, instrs: &[Instr]) -> Result<(), NoMemory>
    requires { AllFit instrs.now }
    ensures { OnOk result (code.new ≡ puts code.old instrs.now) }
{
    let [i, rest @ ..] = instrs else {
        return Ok(());
    };
    put(code, *i)?;
    put_all(code, rest)
}
