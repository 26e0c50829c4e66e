// Simulations: how they are run in round order, what is kept and printed of them, and how one is told that is cut.
ghost use Rattle.std.specs.Prelude.{◌≡◌, ◌≤◌, ◌++◌, ℕ, length, take, Some, IsTrue, IfErr, IfOk, OnErr};
ghost use Rattle.tm_world.specs.Place.{harts};
ghost use Rattle.tm_world.specs.Sound.{Sound};
ghost use Rattle.tm_report_run.specs.Report.{full_line};
ghost use Rattle.tm_plan_script.specs.Accepted.{AreAccepted};
ghost use Rattle.tm_refusals.specs.declared.role.Role.TheVariants as roles;
ghost use Rattle.tm_top_owed.specs.Runs.{events_in, halted_of, IsOver, IsRoundOrder, IsRunUnder};
ghost use Rattle.tm_top_owed.specs.Steps.{PutStop};

use crate::outcome::Outcome;
use crate::steps::print_text;
use crate::stop::Stop;
use std::alloc::Global;
use tm_base::{MOST_EVENTS, NoMemory, Text};
use tm_desk::Sink;
use tm_guest::Guest;
use tm_plan_cases::Program;
use tm_plan_journal::Journal;
use tm_plan_script::Faults;
use tm_report_run::full_text;

/// A simulation that has ended: the text that is printed of it, the status of its command, and its journal.
#[derive(Drop)]
pub struct Simulated {
    pub text: Text,
    pub status: u8,
    pub journal: Journal,
}

impl Simulated {
    /// What is kept of a simulation that has ended under a script of some lines, with how it is told.
    pub fn of(program: &Program, guest: Guest<'_>, text: Text, status: u8) -> Simulated
        requires sound { Sound program.now }
        requires accepted { AreAccepted program.now.cases guest.faults }
        requires over { IsOver program.now guest }
        ensures simulated { IsRunUnder program.now guest.entry.faults guest.entry.limit result.journal.events }
        ensures journal { result.journal.events ≡ guest.entry.journal }
        ensures text { result.text ≡ text }
        ensures status { result.status ≡ status }
    {
        let _ = program;
        Simulated {
            text,
            status,
            journal: guest.into_journal(),
        }
    }
}

/// Runs a program from its start in round order, under a script, until all harts are at their halt marks or there are
/// so many events.
///
/// Asked: a sound program, a script that is accepted over its cases, and 1 to 100,000,000 events.
pub fn run_in_order<'a>(
    alloc: Global,
    program: &'a Program,
    faults: Faults,
    events: u64,
) -> Result<Guest<'a>, NoMemory>
    requires sound { Sound program.now }
    requires accepted { AreAccepted program.now.cases faults }
    requires some { 1 ≤ events }
    requires few { events ≤ MOST_EVENTS }
    ensures over { IfOk result (λ guest. IsOver program.now guest) }
    ensures script { IfOk result (λ guest. guest.faults ≡ faults) }
    ensures limit { IfOk result (λ guest. guest.limit ≡ events) }
    ensures order { IfOk result (λ guest. IsRoundOrder program.now faults events guest.journal) }
{
    let mut guest = Guest::start(alloc, program, faults, events)?;
    let _ = guest.run_round();
    Ok(guest)
}

/// How many harts are at their halt marks.
#[tactic(auto, unfolding(crate::specs::Runs::halted_of))]
fn count_halted(guest: &Guest<'_>) -> u32
    ensures { result ≡ halted_of guest.now }
{
    let mut halted = 0;
    for h in 0..guest.harts() {
        if guest.halted(h) {
            halted += 1;
        }
    }
    halted
}

/// The line on a simulation whose journal is full while some hart isn't at halt.
pub fn cut_text(alloc: Global, guest: &Guest<'_>) -> Result<Text, NoMemory>
    ensures { IfOk result (λ text.
        text ≡ full_line (length guest.now.journal) (halted_of guest.now) (harts guest.now.program)) }
{
    full_text(
        alloc,
        guest.journal().len(),
        count_halted(guest),
        guest.harts(),
    )
}

/// Prints the text of a simulation that has ended, and keeps its status and its journal.
pub fn print_simulated<O: Sink>(simulated: Simulated, out: &mut O) -> Result<Outcome, Stop>
    ensures status { IfOk result (λ end. end.status ≡ simulated.status) }
    ensures journal { IfOk result (λ end. events_in end.journal ≡ Some simulated.journal.events) }
    ensures all { IsTrue O.tells → IfOk result (λ _. O.taken out.new ≡ O.taken out.old ++ simulated.text) }
    ensures front { IsTrue O.tells
        → OnErr result ((n : ℕ) × (O.taken out.new ≡ O.taken out.old ++ take n simulated.text)) }
    ensures cause { IfErr result (λ stop. PutStop stop roles.Output (O.faults out.old) (O.faults out.new)) }
{
    match print_text(out, &simulated.text) {
        Ok(()) => Ok(Outcome {
            status: simulated.status,
            journal: Some(simulated.journal),
        }),
        Err(stop) => Err(stop),
    }
}
