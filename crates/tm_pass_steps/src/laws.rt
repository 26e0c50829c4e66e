// Laws over the definitions, each as the contract of a function that does nothing.
ghost use Rattle.tm_pass_steps.specs.Beginning.{GatesLead};
ghost use Rattle.tm_pass_steps.specs.Building.{BarrierIsPlaced};
ghost use Rattle.tm_pass_steps.specs.Counting.{CounterIsReset};
ghost use Rattle.tm_pass_steps.specs.Entering.{RegistersAreLoaded};
ghost use Rattle.tm_pass_steps.specs.Finding.{ComparisonFinds};
ghost use Rattle.tm_pass_steps.specs.Gathering.{PassIsCollected};
ghost use Rattle.tm_pass_steps.specs.Judging.{CaseIsJudged};
ghost use Rattle.tm_pass_steps.specs.Meeting.{CallMeets};
ghost use Rattle.tm_pass_steps.specs.Placed.{BlocksMakeSteps, PlacedHartKeeps, PlacedHartKeepsPace};
ghost use Rattle.tm_pass_steps.specs.Saving.{RegistersAreSaved};
ghost use Rattle.tm_pass_steps.specs.Setting.{FirstIsSet};
ghost use Rattle.tm_pass_steps.specs.Turning.{PassTurns};

use tm_plan_cases::Program;

/// A call of the barrier leads a hart into its next phase, whatever the flags return.
pub fn call_meets(program: &Program)
    ensures { CallMeets program.now }
{
    let _ = program;
}

/// The words that set first dwords set all that the hart collects, as its way asks for it.
pub fn first_is_set(program: &Program)
    ensures { FirstIsSet program.now }
{
    let _ = program;
}

/// The words that collect save the end state of the pass that the counter says, as the hart's way asks for it.
pub fn pass_is_collected(program: &Program)
    ensures { PassIsCollected program.now }
{
    let _ = program;
}

/// Where memory has a case's masks, the number that the comparison gives is what is found in the save areas.
pub fn comparison_finds(program: &Program)
    ensures { ComparisonFinds program.now }
{
    let _ = program;
}

/// A hart comes through the gates of those before it to its first case.
pub fn gates_lead(program: &Program)
    ensures { GatesLead program.now }
{
    let _ = program;
}

/// The word that sets the pass counter to 0 does so as the hart's way asks for it.
pub fn counter_is_reset(program: &Program)
    ensures { CounterIsReset program.now }
{
    let _ = program;
}

/// The words behind a pass count it, and lead to the next pass or on.
pub fn pass_turns(program: &Program)
    ensures { PassTurns program.now }
{
    let _ = program;
}

/// The words that load a hart's first registers lead into its stream, as its way asks for it.
pub fn registers_are_loaded(program: &Program)
    ensures { RegistersAreLoaded program.now }
{
    let _ = program;
}

/// The words that save the registers do so as the hart's way asks for it.
pub fn registers_are_saved(program: &Program)
    ensures { RegistersAreSaved program.now }
{
    let _ = program;
}

/// The words that compare the passes of a case judge it, as the hart's way asks for it.
pub fn case_is_judged(program: &Program)
    ensures { CaseIsJudged program.now }
{
    let _ = program;
}

/// A hart whose blocks stand in their places has all steps of its way.
pub fn blocks_make_steps(program: &Program)
    ensures { BlocksMakeSteps program.now }
{
    let _ = program;
}

/// A hart whose blocks stand in their places keeps the course, writes its verdicts exactly, works within its limits
/// and doesn't get stuck.
pub fn placed_hart_keeps(program: &Program)
    ensures { PlacedHartKeeps program.now }
{
    let _ = program;
}

/// Its phases' limits are made up of what its parts work, and it keeps that pace.
pub fn placed_hart_keeps_pace(program: &Program)
    ensures { PlacedHartKeepsPace program.now }
{
    let _ = program;
}

/// A built text has each hart's barrier behind its halt mark.
pub fn barrier_is_placed(program: &Program)
    ensures { BarrierIsPlaced program.now }
{
    let _ = program;
}
