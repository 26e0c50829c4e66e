// The words of the text, decoded once.
ghost use Rattle.std.specs.Prelude.{◌≡◌, IfOk, IfSome};
ghost use Rattle.tm_table.specs.Words.{Fits};
ghost use Rattle.tm_plan_cases.specs.declared.program.Program.{Program as TheProgram};
ghost use Rattle.tm_plan_map.specs.Slots.{instr_of as instr_of_word};
ghost use Rattle.tm_judge.specs.Text.{IsRow, AreRows, Stands};

use std::alloc::Global;
use tm_base::NoMemory;
use tm_plan_map::TEXT_ADDRESS;
use tm_table::{Instr, decode};

/// A word of the text, and its instruction where it has one.
#[derive(Clone, Copy)]
pub struct Row {
    pub word: u32,
    pub instr: Option<Instr>,
}

/// The rows of a text.
pub fn rows_of(alloc: Global, text: &[u32]) -> Result<Vec<Row>, NoMemory>
    ensures { IfOk result (λ v. AreRows text.now v.items) }
{
    let mut rows = match Vec::with_capacity(alloc, text.len()) {
        Ok(rows) => rows,
        Err(_) => return Err(NoMemory),
    };
    for word in text {
        match rows.push(row_of(*word)) {
            Ok(()) => {}
            Err(_) => return Err(NoMemory),
        }
    }
    Ok(rows)
}

#[tactic(auto, unfolding(tm_plan_map::specs::Slots::instr_of))]
fn row_of(word: u32) -> Row
    ensures { IsRow word result }
{
    Row {
        word,
        instr: decode(word),
    }
}

/// The row that stands at an address.
pub fn row_there(rows: &Vec<Row>, pc: u64) -> Option<Row>
    ensures { (p : TheProgram) → AreRows p.text rows.now.items → Stands p pc result }
{
    if pc % 4 != 0 {
        return None;
    }
    if pc < TEXT_ADDRESS {
        return None;
    }
    let place = (pc - TEXT_ADDRESS) / 4;
    if place >= rows.len() as u64 {
        return None;
    }
    Some(rows[place as usize])
}

/// The instruction of a row.
pub fn instr_in(row: Row) -> Option<Instr>
    requires { IsRow row.word row }
    ensures value { result ≡ instr_of_word row.word }
    ensures fits { IfSome result Fits }
{
    row.instr
}
