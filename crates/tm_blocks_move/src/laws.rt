// The laws of these words, as contracts of functions that do nothing.
ghost use Rattle.std.specs.Prelude.{ℕ};
ghost use Rattle.tm_blocks_move.specs.Runs.{FirstBytesRuns, CollectAllRuns, FitsIn};
ghost use Rattle.tm_blocks_move.specs.Once.{CollectsOnce};

use tm_plan_cases::{Cases, Program};

/// The words set and collect exactly the dwords that a hart collects, and read each of them once.
pub fn moves(cases: &Cases)
    ensures first { (h : ℕ) → (from : ℕ) → FirstBytesRuns cases.now h from }
    ensures collect { (h : ℕ) → CollectAllRuns cases.now h }
    ensures once { (h : ℕ) → CollectsOnce cases.now h }
{
    let _ = cases;
}

/// The moves may be made in the world of each hart of a program.
pub fn worlds(program: &Program)
    ensures { (h : ℕ) → FitsIn program.now h }
{
    let _ = program;
}
