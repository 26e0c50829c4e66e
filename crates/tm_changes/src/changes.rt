// The changes of a script, found by the place of a word in the text.
ghost use Rattle.std.specs.Prelude.{◌≡◌, ◌≤◌, ◌<◌, ◌^◌, length, IfOk, if◌then◌else◌};
ghost use Rattle.tm_plan_cases.specs.Shaped.{IsProgram};
ghost use Rattle.tm_plan_map.specs.Map.{text_base};
ghost use Rattle.tm_world.specs.Script.{change_of, names as names_of};
ghost use Rattle.tm_changes.specs.Made.{change_in, change_told, with_action};
ghost use Rattle.tm_changes.specs.Scripted.{IsLast, place_of};

use crate::chains::{chain_all, zeros};
use crate::change::Change;
use crate::names::names;
use std::alloc::Global;
use std::marker::Model;
use tm_base::NoMemory;
use tm_plan_cases::Program;
use tm_plan_map::TEXT_ADDRESS;
use tm_plan_script::{FaultLine, Faults};

/// A program under a script. The lines whose slots stand at one word of the text are chained, the last one first, so
/// that a step looks at the lines of its own word alone. Contracts see the program and the lines.
#[derive(Drop)]
pub struct Changes<'a> {
    program: &'a Program,
    faults: Faults,
    // For each word of the text the number of its last line, counted from 1; 0 where it has none.
    lasts: Vec<u32>,
    // For each line the number of the line before it at the same word.
    befores: Vec<u32>,
}

impl<'a> Model for Changes<'a> {
    ghost use Rattle.tm_changes.specs.Scripted.{Scripted, KeepsChains};

    ghost Value = { Scripted };

    ghost view = { λ c. record { program = c.program.now; lines = c.faults } };

    ghost invariant = { λ c. KeepsChains c.program.now c.faults c.lasts.items c.befores.items };
}

impl<'a> Changes<'a> {
    /// The changes of a script. Memory is taken here alone, 4 bytes for each word of the text and for each line; for
    /// 2^32 lines there is none.
    pub fn start(
        alloc: Global,
        program: &'a Program,
        faults: Faults,
    ) -> Result<Changes<'a>, NoMemory>
        requires { IsProgram program.now }
        ensures program { IfOk result (λ c. c.program ≡ program.now) }
        ensures lines { IfOk result (λ c. c.lines ≡ faults) }
    {
        let lines = faults.as_slice();
        if lines.len() > u32::MAX as usize {
            return Err(NoMemory);
        }
        let mut lasts = match zeros(alloc, program.text.as_slice().len()) {
            Ok(lasts) => lasts,
            Err(e) => return Err(e),
        };
        let mut befores = match zeros(alloc, lines.len()) {
            Ok(befores) => befores,
            Err(e) => return Err(e),
        };
        chain_all(program, lines, &mut lasts, &mut befores);
        Ok(Changes {
            program,
            faults,
            lasts,
            befores,
        })
    }

    /// What the script changes in the step of hart `h` at `pc` in a phase; none is no change. Asked: `pc` lies in a word
    /// of the text.
    pub fn at(&self, h: u32, phase: u64, pc: u64) -> Option<Change>
        requires from { text_base ≤ pc }
        requires within { place_of pc < length self.now.program.text }
        ensures { change_told result ≡ change_of self.now.program self.now.lines h phase pc }
    {
        if self.faults.as_slice().is_empty() {
            return None;
        }
        let last = self.lasts[((pc - TEXT_ADDRESS) / 4) as usize];
        if last == 0 {
            return None;
        }
        Some(self.change(last, h, phase, pc))
    }

    // What the lines of a word change, of which this is the last, one after the other from it to the first. It is
    // called apart, so that the way of a step without a line stays short.
    #[inline(never)]
    fn change(&self, last: u32, h: u32, phase: u64, pc: u64) -> Change
        requires from { text_base ≤ pc }
        requires within { place_of pc < length self.now.program.text }
        requires last { IsLast self.now.program self.now.lines (place_of pc) (length self.now.lines) last }
        ensures { change_in result ≡ change_of self.now.program self.now.lines h phase pc }
    {
        let lines = self.faults.as_slice();
        let mut change = Change::nothing();
        let mut left = last;
        while left > 0 {
            let place = left as usize - 1;
            change = with_line(self.program, &lines[place], change, h, phase, pc);
            left = self.befores[place];
        }
        change
    }
}

// A change with the action of a line, where the line speaks of the step.
fn with_line(
    program: &Program,
    line: &FaultLine,
    change: Change,
    h: u32,
    phase: u64,
    pc: u64,
) -> Change
    requires { IsProgram program.now }
    ensures { change_in result ≡ (if names_of program.now line.now h phase pc
        then with_action line.now.action (change_in change) else change_in change) }
{
    if names(program, line, h, phase, pc) {
        return change.with(line.action);
    }
    change
}
