// How a simulation is told that has ended.
ghost use Rattle.std.specs.Prelude.{◌≡◌, IfOk};
ghost use Rattle.tm_guest.specs.Rounds.{AllHalted};
ghost use Rattle.tm_world.specs.Sound.{Sound};
ghost use Rattle.tm_top_owed.specs.Runs.{IsOver};
ghost use Rattle.tm_plan_script.specs.Accepted.{AreAccepted};
ghost use Rattle.tm_top_run.specs.Steps.{IsToldOf, IsToldRight, IsStatusOf};

use std::alloc::Global;
use tm_base::{NoMemory, Text};
use tm_guest::Guest;
use tm_plan_cases::Program;
use tm_report_run::{report_text, verdicts};
use tm_top_owed::{Simulated, cut_text};

/// The status of a run whose harts are all at halt: 0 where no case is reported, and else 1.
fn status_of(verdicts: &[u64]) -> u8
    ensures { IsStatusOf verdicts.now result }
{
    if verdicts.iter().all(|verdict| *verdict == 0) {
        return 0;
    }
    1
}

// The report on a simulation at whose end all harts are at halt, and its status.
fn reported(alloc: Global, program: &Program, guest: &Guest<'_>) -> Result<(Text, u8), NoMemory>
    requires sound { Sound program.now }
    requires accepted { AreAccepted program.now.cases guest.now.faults }
    requires over { IsOver program.now guest.now }
    requires halted { AllHalted guest.now }
    ensures { IfOk result (λ both. IsToldRight guest.now both.0 both.1) }
{
    let journal = guest.journal();
    let found = verdicts(alloc, program, journal)?;
    let text = report_text(alloc, &program.cases, &found, journal.len())?;
    Ok((text, status_of(found.as_slice())))
}

// The report on a simulation, or the line that says that its journal is full while some hart isn't at halt; and its
// status.
fn ending(alloc: Global, program: &Program, guest: &Guest<'_>) -> Result<(Text, u8), NoMemory>
    requires sound { Sound program.now }
    requires accepted { AreAccepted program.now.cases guest.now.faults }
    requires over { IsOver program.now guest.now }
    ensures { IfOk result (λ both. IsToldRight guest.now both.0 both.1) }
{
    if guest.all_halted() {
        return reported(alloc, program, guest);
    }
    let text = cut_text(alloc, guest)?;
    Ok((text, 4))
}

/// Tells a simulation that has ended, since all harts are at halt or the journal is full: where all harts are at halt
/// with the report, and status 0 where no case is reported, and else 1; and else with the line that says so, and status
/// 4. Where the script has no lines, no case of a sound program is reported, and status 1 never comes.
///
/// Asked: a sound program, and a script that is accepted over its cases.
pub fn told(alloc: Global, program: &Program, guest: Guest<'_>) -> Result<Simulated, NoMemory>
    requires sound { Sound program.now }
    requires accepted { AreAccepted program.now.cases guest.faults }
    requires over { IsOver program.now guest }
    ensures told { IfOk result (λ s.
        IsToldOf program.now guest.entry.faults guest.entry.limit guest.entry.journal s.text s.status) }
    ensures journal { IfOk result (λ s. s.journal.events ≡ guest.entry.journal) }
{
    let (text, status) = ending(alloc, program, &guest)?;
    Ok(Simulated::of(program, guest, text, status))
}
