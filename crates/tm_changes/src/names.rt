// Of which steps a line speaks.
ghost use Rattle.std.specs.Prelude.{◌≡◌, ◌*◌, ◌+◌, slice_index, length};
ghost use Rattle.tm_plan_cases.specs.Shaped.{IsProgram};
ghost use Rattle.tm_world.specs.Place.{start_of, end_of, passes};
ghost use Rattle.tm_world.specs.Writers.{case_of_phase};
ghost use Rattle.tm_world.specs.Script.{is_of_pass as of_pass, pass_of_phase, is_slot_at, names as names_of};

use tm_plan_cases::Program;
use tm_plan_script::FaultLine;

// The number at a place, 0 where there is none.
fn number_at(numbers: &[u64], place: u64) -> u64
    ensures { result ≡ slice_index numbers.now place }
{
    match numbers.get(place as usize) {
        Some(number) => *number,
        None => 0,
    }
}

// The place of a hart's stream of a case among the marks.
fn mark_of(program: &Program, hart: u32, case: u32) -> u64
    requires { IsProgram program.now }
    ensures { result ≡ hart * length program.now.cases.cases + case }
{
    let count = program.cases.cases.as_slice().len() as u64;
    u64::from(hart) * count + u64::from(case)
}

/// Where the stream of a hart in a case starts.
pub fn start_at(program: &Program, hart: u32, case: u32) -> u64
    requires { IsProgram program.now }
    ensures { result ≡ start_of program.now hart case }
{
    number_at(
        program.marks.starts.as_slice(),
        mark_of(program, hart, case),
    )
}

// Where it ends.
fn end_at(program: &Program, hart: u32, case: u32) -> u64
    requires { IsProgram program.now }
    ensures { result ≡ end_of program.now hart case }
{
    number_at(program.marks.ends.as_slice(), mark_of(program, hart, case))
}

// Whether a line speaks of a pass.
fn is_of_pass(pass: Option<u32>, number: u64) -> bool
    ensures { result ≡ of_pass pass number }
{
    match pass {
        Some(pass) => u64::from(pass) == number,
        None => true,
    }
}

// Whether the line's slot in its own hart's stream of its own case stands at `pc`.
fn stands_at(program: &Program, line: &FaultLine, pc: u64) -> bool
    requires { IsProgram program.now }
    ensures { result ≡ is_slot_at program.now line.now line.now.hart line.now.case pc }
{
    let start = start_at(program, line.hart, line.case);
    if start > pc {
        return false;
    }
    if pc >= end_at(program, line.hart, line.case) {
        return false;
    }
    4 * u64::from(line.slot) == pc - start
}

// The case that is run in a phase, if one is.
fn case_at(program: &Program, phase: u64) -> Option<u64>
    requires { IsProgram program.now }
    ensures { result ≡ case_of_phase program.now phase }
{
    let count = program.cases.cases.as_slice().len() as u64;
    let passes = u64::from(program.cases.passes);
    if phase % 2 != 1 {
        return None;
    }
    if phase / 2 >= count * passes {
        return None;
    }
    Some(phase / 2 / passes)
}

/// Whether a line speaks of the step of hart `h` at `pc` in a phase.
#[tactic(auto, unfolding(tm_world::specs::Script::names))]
pub fn names(program: &Program, line: &FaultLine, h: u32, phase: u64, pc: u64) -> bool
    requires { IsProgram program.now }
    ensures { result ≡ names_of program.now line.now h phase pc }
{
    let Some(case) = case_at(program, phase) else {
        return false;
    };
    if line.hart != h {
        return false;
    }
    if u64::from(line.case) != case {
        return false;
    }
    let pass = phase / 2 % u64::from(program.cases.passes);
    if !is_of_pass(line.pass, pass) {
        return false;
    }
    stands_at(program, line, pc)
}
