// The laws of a hart's lines, as contracts of functions that do nothing.
ghost use Rattle.std.specs.Prelude.{ℕ};
ghost use Rattle.tm_plan_owned.specs.Lines.{LinesAreOwned};

use tm_plan_cases::Cases;

/// The lines of a hart hold exactly the dwords that it collects, in address order.
pub fn lines(cases: &Cases)
    ensures { (h : ℕ) → LinesAreOwned cases.now h }
{
    let _ = cases;
}
