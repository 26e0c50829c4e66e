// The program of a test and a seed.
ghost use Rattle.std.specs.Prelude.{◌≡◌, IfOk};
ghost use Rattle.tm_place.specs.Ruled.{IsRuled};
ghost use Rattle.tm_world.specs.Sound.{Sound};
ghost use Rattle.tm_image_program.specs.Program.{program_for};

use std::alloc::Global;
use tm_base::NoMemory;
use tm_gen::streams;
use tm_pass::program_text;
use tm_plan_cases::{Program, tables};
use tm_plan_map::Admitted;
use tm_race::track;

/// The program of a ruled test and a seed: of 1 to 8 harts, 1 to 32 cases and 2 to 8 passes. It is sound. The only
/// error is that there is no memory.
pub fn program_of(alloc: Global, a: &Admitted, seed: u64) -> Result<Program, NoMemory>
    requires { IsRuled a.now }
    ensures program { IfOk result (λ p. p ≡ program_for a.now seed) }
    ensures sound { IfOk result Sound }
{
    let cases = streams(alloc, a, seed)?;
    let masks = track(alloc, &cases)?;
    let tables = tables(alloc, &cases, &masks)?;
    let code = program_text(alloc, &cases)?;
    Ok(Program {
        cases,
        masks,
        marks: code.marks,
        text: code.text,
        tables,
    })
}
