// The laws of these words, as contracts of functions that do nothing.
ghost use Rattle.std.specs.Prelude.{ℕ};
ghost use Rattle.tm_blocks_compare.specs.Runs.{CompareAllRuns, NamesLeastOfAll, ComparingIn};

use tm_plan_cases::{Cases, Program};

/// The words compare all passes, and their verdict names the least pass and the least dword that differs.
pub fn compare(cases: &Cases)
    ensures runs { (h : ℕ) → (first : ℕ) → (masks : ℕ) → (bytes : ℕ) → (cell : ℕ)
        → CompareAllRuns cases.now h first masks bytes cell }
    ensures least { (h : ℕ) → (first : ℕ) → (masks : ℕ) → (bytes : ℕ) → NamesLeastOfAll cases.now h first masks bytes }
{
    let _ = cases;
}

/// Each hart of a program has what the comparison of a case takes.
pub fn worlds(program: &Program)
    ensures { (h : ℕ) → (c : ℕ) → ComparingIn program.now h c }
{
    let _ = program;
}
