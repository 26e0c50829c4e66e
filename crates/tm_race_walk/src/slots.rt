// What a slot reads and writes of registers and of planes.
ghost use Rattle.std.specs.Prelude.{◌≡◌, ◌≢◌, ◌<◌, ◌↔◌, ◌⊎◌, ℕ, IsTrue, Contains, [], ◌∷◌, max};
ghost use Rattle.tm_plan_map.specs.Map.{within};
ghost use Rattle.tm_plan_map.specs.Slots as slots;
ghost use Rattle.tm_base.specs.Lists.{any};
ghost use Rattle.tm_world.specs.Slots.{named, load_bytes, target_of as target_at};
ghost use Rattle.tm_plane.specs.Plane.{Bit, in_plane, Overwritten};
ghost use Rattle.tm_race_walk.specs.Forward.{Raised};
ghost use Rattle.tm_race_walk.specs.Slots.{IsLoad, IsStore, IsNamed};

use tm_plan_map::{is_jump, load_width, slot_addr, store_width};
use tm_plane::{Plane, has_any, overwrite, with_bit};
use tm_table::Instr;

// A set of registers with one more, if it isn't x0.
fn with_register(word: u64, r: u8) -> u64
    requires { r < 32 }
    ensures { (j : ℕ) → Bit result j ↔ (((r ≢ 0) × (j ≡ r)) ⊎ Bit word j) }
{
    if r == 0 {
        return word;
    }
    with_bit(word, u32::from(r))
}

/// The registers that an instruction reads, without x0.
pub fn sources(i: Instr) -> u64
    requires first { i.rs1 < 32 }
    requires second { i.rs2 < 32 }
    ensures { (r : ℕ) → Bit result r ↔ Contains (named (i.rs1 ∷ i.rs2 ∷ [])) r }
{
    with_register(with_register(0, i.rs2), i.rs1)
}

/// The register that an instruction writes, if it isn't x0.
pub fn target_register(i: Instr) -> u64
    requires { i.rd < 32 }
    ensures { (r : ℕ) → Bit result r ↔ Contains (named (i.rd ∷ [])) r }
{
    with_register(0, i.rd)
}

/// The target slot of a branch or JAL at slot `n`.
#[tactic(auto, unfolding(tm_plan_map::specs::Slots::slot_target))]
pub fn target_of(n: u32, i: Instr) -> Option<u32>
    requires { IsNamed n i }
    ensures { result ≡ target_at n i }
{
    if is_jump(i.op) {
        Some(n + (i.imm.cast_unsigned() / 4) as u32)
    } else {
        None
    }
}

/// Whether an instruction loads a byte of a plane.
pub fn loads_any(plane: &Plane, i: Instr) -> bool
    requires { IsLoad i }
    ensures { result ≡ any (in_plane plane.now) (load_bytes i) }
{
    let width = load_width(i.op);
    if width == 0 {
        return false;
    }
    has_any(plane, slot_addr(i), width)
}

/// What a plane becomes where an instruction stores to those of its bytes that are in `own`.
pub fn stored(plane: &mut Plane, own: &Plane, i: Instr, marks: bool, covered: bool)
    requires { IsStore i }
    ensures { (b : ℕ) → IsTrue (in_plane plane.new b)
        ↔ Overwritten (IsTrue (in_plane own.now b) × IsTrue (within (slots.slot_addr i) (slots.store_width i.op) b))
        (IsTrue (in_plane plane.old b)) marks covered }
{
    let width = store_width(i.op);
    if width > 0 {
        overwrite(plane, own, slot_addr(i), width, marks, covered);
    }
}

/// The greater of a reach and of a target that counts.
pub fn raised(target: Option<u32>, counts: bool, old: u32) -> u32
    ensures { Raised (IsTrue counts) target old result }
{
    match target {
        Some(t) => if counts { old.max(t) } else { old },
        None => old,
    }
}

/// Whether what a slot writes depends: it races, it reads what depends, or it stands below the reach of steered
/// slots.
pub fn marks_of(races: bool, reads: bool, n: u32, reach: u32) -> bool
    ensures { IsTrue result ↔ (IsTrue races ⊎ (IsTrue reads ⊎ (n < reach))) }
{
    races || reads || n < reach
}

/// Whether one of two facts holds.
pub fn either(a: bool, b: bool) -> bool
    ensures { IsTrue result ↔ (IsTrue a ⊎ IsTrue b) }
{
    a || b
}

/// Whether a slot is steered, if it is a branch or JAL.
pub fn turns(decides: bool, reads: bool, n: u32, reach: u32) -> bool
    ensures { IsTrue result ↔ ((IsTrue decides × IsTrue reads) ⊎ (n < reach)) }
{
    decides && reads || n < reach
}
