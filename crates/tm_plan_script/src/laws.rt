// A law over the definitions, as the contract of a function that does nothing.
ghost use Rattle.tm_plan_script.specs.Laws.{AcceptedAreSmall};

use tm_plan_cases::Cases;

/// The numbers of accepted lines have 64 bits.
pub fn accepted_lines(cases: &Cases)
    ensures { AcceptedAreSmall cases.now }
{
    let _ = cases;
}
