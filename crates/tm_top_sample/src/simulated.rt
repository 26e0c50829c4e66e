// The simulation of a sample, and how it is told.
ghost use Rattle.std.specs.Prelude.{◌≡◌, ◌≤◌, IfOk};
ghost use Rattle.tm_plan_cases.specs.Collected.{budget_of};
ghost use Rattle.tm_plan_cases.specs.Shaped.{IsProgram};
ghost use Rattle.tm_world.specs.Sound.{Sound};
ghost use Rattle.tm_report_run.specs.Verdicts.{verdicts_of};
ghost use Rattle.tm_top_owed.specs.Sample.{summary};
ghost use Rattle.tm_top_sample.specs.Steps.{IsSummary};

use crate::summary::summary_text;
use std::alloc::Global;
use tm_base::{DEFAULT_EVENTS, NoMemory, Text};
use tm_plan_cases::Program;
use tm_plan_journal::Journal;
use tm_plan_script::Faults;
use tm_report_run::verdicts;
use tm_top_owed::{Simulated, run_in_order};

// The summary of a simulation at whose end all harts are at halt.
fn summed_text(
    alloc: Global,
    n: u64,
    program: &Program,
    journal: &Journal,
) -> Result<Text, NoMemory>
    requires { IsProgram program.now }
    ensures { IfOk result (λ text.
        text ≡ summary n program.now.cases (verdicts_of program.now.cases journal.now.events)) }
{
    let verdicts = verdicts(alloc, program, journal)?;
    summary_text(alloc, n, &program.cases, &verdicts)
}

/// Simulates the program of sample `n` in round order. All harts come to halt, within 4,000,000 events, and the status
/// is 0.
///
/// Asked: a sound program whose budget lies within these events.
pub fn simulated(alloc: Global, n: u64, program: &Program) -> Result<Simulated, NoMemory>
    requires sound { Sound program.now }
    requires room { budget_of program.now.cases ≤ DEFAULT_EVENTS }
    ensures { IfOk result (λ s. IsSummary n program.now s.journal.events s.text s.status) }
{
    let guest = run_in_order(alloc, program, Faults::nothing(alloc), DEFAULT_EVENTS)?;
    let text = summed_text(alloc, n, program, guest.journal())?;
    Ok(Simulated::of(program, guest, text, 0))
}
