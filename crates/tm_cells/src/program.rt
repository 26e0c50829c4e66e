// The program of a test of cells.
ghost use Rattle.std.specs.Prelude.{◌≡◌, ◌≤◌, ◌++◌, [], ◌∷◌, IfOk, length};
ghost use Rattle.tm_plan_map.specs.Map.{text_base};
ghost use Rattle.tm_cells_plan.specs.Sums.{IsPlan};
ghost use Rattle.tm_cells_code.specs.Words.{cell_text, cell_exits, cell_halts};
ghost use Rattle.tm_cells.specs.Program.{IsCellProgram, IsOfPlan};

use crate::hart::append_hart;
use std::alloc::Global;
use tm_base::{List, NoMemory, Words};
use tm_cells_plan::{CellPlan, cell_sums};

/// The words of a test of cells, and the addresses of its exit marks and halt marks, one of each for each hart. The
/// type keeps that they are those of the plan, and what each cell run of them does.
#[derive(Drop)]
pub struct CellProgram {
    pub plan: CellPlan,
    pub text: Words,
    pub exits: List<u64>,
    pub halts: List<u64>,
    pub ghost of_plan: { IsOfPlan plan text exits halts },
    pub ghost kept: { ∥ IsCellProgram plan text exits halts ∥₁ },
}

/// The program of a test.
pub fn cell_program(alloc: Global, plan: &CellPlan) -> Result<CellProgram, NoMemory>
    requires plan { IsPlan plan.now }
    ensures plan { IfOk result (λ p. p.plan ≡ plan.now) }
    ensures text { IfOk result (λ p. p.text ≡ cell_text plan.now) }
    ensures exits { IfOk result (λ p. p.exits ≡ cell_exits plan.now) }
    ensures halts { IfOk result (λ p. p.halts ≡ cell_halts plan.now) }
    ensures kept { IfOk result (λ p. IsCellProgram p.plan p.text p.exits p.halts) }
{
    let made = made_text(alloc, plan)?;
    Ok(CellProgram {
        plan: *plan,
        text: made.text,
        exits: made.exits,
        halts: made.halts,
    })
}

// The words of all harts and their marks.
#[derive(Drop)]
struct MadeText {
    text: Words,
    exits: List<u64>,
    halts: List<u64>,
}

fn made_text(alloc: Global, plan: &CellPlan) -> Result<MadeText, NoMemory>
    requires plan { IsPlan plan.now }
    ensures text { IfOk result (λ made. made.text ≡ cell_text plan.now) }
    ensures exits { IfOk result (λ made. made.exits ≡ cell_exits plan.now) }
    ensures halts { IfOk result (λ made. made.halts ≡ cell_halts plan.now) }
{
    let sums = cell_sums(plan);
    let mut text = Words::new(alloc);
    let mut exits = List::new(alloc);
    let mut halts = List::new(alloc);
    let mut base = TEXT_BASE;
    for h in 0..plan.harts {
        let marks = append_hart(alloc, &mut text, plan, &sums, h, base)?;
        exits.push(marks.exit)?;
        halts.push(marks.behind - 4)?;
        base = marks.behind;
    }
    Ok(MadeText { text, exits, halts })
}

// The first address of the text.
const TEXT_BASE: u64 = 0x8000_0000;
