// A walk over a hart's slots, which knows what depends on a race.
ghost use Rattle.std.specs.Prelude.{◌≡◌, ◌<◌, ◌+◌, ◌↔◌, ℕ, IsTrue, length, replicate, slice_get, Some, Contains};
ghost use Rattle.tm_plan_cases.specs.declared.cases.Case.{Case as TheCase};
ghost use Rattle.tm_plan_cases.specs.declared.cases.Stream.{Stream as TheStream};
ghost use Rattle.tm_plan_map.specs.Slots.{instr_of};
ghost use Rattle.tm_plane.specs.Plane.{in_plane};
ghost use Rattle.tm_race_walk.specs.Slots.{IsTracked, reads_of, plane_slot};
ghost use Rattle.tm_race_walk.specs.Shapes.{IsOfShaped, another_in, own_in};
ghost use Rattle.tm_race_walk.specs.Taints.{Holds, Moved, StandsAt};

use crate::slots::{
    either, loads_any, marks_of, raised, sources, stored, target_of, target_register, turns,
};
use crate::stores::stream_of;
use tm_plan_cases::{Case, Stream};
use tm_plan_map::is_branch;
use tm_plane::{PLANE_WORDS, Plane, meets, overwritten};
use tm_table::{Instr, decode};

/// What depends on a race before a slot: register r where bit r of `regs` is set, and byte q of the windows, counted
/// from 0x80E80000, where bit q mod 64 of element q / 64 of `bytes` is set. `steered` is the greatest target of a
/// steered slot before it, or 0, and `covered` the greatest target of any branch or JAL before it, or 0.
#[derive(Clone, Copy)]
pub struct Taint {
    pub regs: u64,
    pub bytes: Plane,
    pub steered: u32,
    pub covered: u32,
}

impl Taint {
    /// What depends before the first slot: nothing.
    pub fn fresh() -> Taint
        ensures zero { result ≡ record { regs = 0; bytes = replicate PLANE_WORDS 0; steered = 0; covered = 0 } }
        ensures stands { (case : TheCase) (h : ℕ) → StandsAt case h 0 result }
    {
        Taint {
            regs: 0,
            bytes: [0; PLANE_WORDS],
            steered: 0,
            covered: 0,
        }
    }

    /// Goes over slot `i` of hart `h`. `h` is below the number of streams, `i` below the stream's length, and the
    /// case is one of shaped cases. `others` are the bytes with another may-writer, and `own` those whose only
    /// may-writer is `h`.
    pub fn forward(&mut self, case: &Case, h: u32, i: u32, others: &Plane, own: &Plane)
        requires case { IsOfShaped case.now }
        requires hart { h < length case.now.streams }
        requires slot { (s : TheStream) → slice_get case.now.streams h ≡ Some s → i < length s.words }
        requires others { (b : ℕ) → in_plane others.now b ≡ another_in case.now h b }
        requires own { (b : ℕ) → in_plane own.now b ≡ own_in case.now h b }
        requires stands { StandsAt case.now h i self.old }
        ensures { StandsAt case.now h (i + 1) self.new }
    {
        let Some(instr) = instr_at(stream_of(case, h), i) else {
            return;
        };
        self.step(i, instr, others, own);
    }

    // Whether an instruction reads what depends.
    fn reads(&self, n: u32, i: Instr) -> bool
        requires { IsTracked n i }
        ensures { IsTrue result ↔ ((s : ℕ) × Contains (reads_of i) s × Holds self.now s) }
    {
        let _ = n;
        either(meets(self.regs, sources(i)), loads_any(&self.bytes, i))
    }

    // Goes over slot n, whose instruction is i.
    fn step(&mut self, n: u32, i: Instr, others: &Plane, own: &Plane)
        requires { IsTracked n i }
        ensures { Moved (plane_slot others.now own.now n i) n self.old self.new }
    {
        let reads = self.reads(n, i);
        let marks = marks_of(loads_any(others, i), reads, n, self.steered);
        let turns = turns(is_branch(i.op), reads, n, self.steered);
        let target = target_of(n, i);
        let covered = n < self.covered;
        self.regs = overwritten(self.regs, target_register(i), marks, covered);
        stored(&mut self.bytes, own, i, marks, covered);
        self.steered = raised(target, turns, self.steered);
        self.covered = raised(target, true, self.covered);
    }
}

// The instruction in slot i of a stream.
#[tactic(auto, unfolding(tm_plan_map::specs::Slots::instr_of))]
fn instr_at(stream: &Stream, i: u32) -> Option<Instr>
    requires { i < length stream.now.words }
    ensures { (w : ℕ) → slice_get stream.now.words i ≡ Some w → result ≡ instr_of w }
{
    decode(stream.words.as_slice()[i as usize])
}
