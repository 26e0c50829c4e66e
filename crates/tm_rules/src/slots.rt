// The slots of a body, written out.
ghost use Rattle.std.specs.Prelude.{◌≡◌, ◌++◌, [], ◌∷◌, replicate, IfOk, OnOk};
ghost use Rattle.tm_asm_line.specs.Reading.{line_of};
ghost use Rattle.tm_rules.specs.Admitting as admitting;

use std::alloc::Global;
use tm_asm_line::parse_line;
use tm_base::{List, NoMemory};
use tm_plan_map::{Slot, SlotList};
use tm_table::{Instr, Op};
use tm_tmpl_types::{SlotDecl, SlotText};

// `addi x0, x0, 0`, which changes nothing.
const NOTHING: Instr = Instr {
    op: Op::Addi,
    rd: 0,
    rs1: 0,
    rs2: 0,
    imm: 0,
};

// The one slot of a hart without a body.
#[tactic(auto, unfolding(crate::specs::Admitting::nothing))]
pub fn one_slot(alloc: Global) -> Result<SlotList, NoMemory>
    ensures { IfOk result (λ slots. slots ≡ Slot.Emit admitting.nothing ∷ []) }
{
    let mut slots = List::new(alloc);
    slots.push(Slot::Emit(NOTHING))?;
    Ok(slots)
}

// The slots of statements, with each mix written out.
pub fn written_out(alloc: Global, statements: &[SlotDecl]) -> Result<SlotList, NoMemory>
    ensures { IfOk result (λ slots. slots ≡ admitting.written_out statements.now) }
{
    let mut slots = List::new(alloc);
    for statement in statements {
        put_slots(&mut slots, &statement.what)?;
    }
    Ok(slots)
}

// Appends the slots of one statement.
#[tactic(auto, unfolding(crate::specs::Admitting::slots_of))]
fn put_slots(slots: &mut SlotList, what: &SlotText) -> Result<(), NoMemory>
    ensures { OnOk result (slots.new ≡ slots.old ++ admitting.slots_of what.now) }
{
    match what {
        SlotText::Emit(text) => slots.push(Slot::Emit(spelled(text.as_slice()))),
        SlotText::Mix {
            count,
            alu,
            load,
            store,
            branch,
        } => {
            let slot = Slot::Mix {
                alu: *alu,
                load: *load,
                store: *store,
                branch: *branch,
            };
            put_many(slots, *count, slot)
        }
    }
}

// The instruction that a line spells, where it spells one.
#[tactic(auto, unfolding(crate::specs::Admitting::nothing))]
fn spelled(text: &[u8]) -> Instr
    ensures { result ≡ admitting.or_nothing (line_of text.now) }
{
    match parse_line(text) {
        Ok(instr) => instr,
        Err(_) => NOTHING,
    }
}

// Appends a slot so many times.
fn put_many(slots: &mut SlotList, count: u32, slot: Slot) -> Result<(), NoMemory>
    ensures { OnOk result (slots.new ≡ slots.old ++ replicate count slot) }
{
    for _ in 0..count {
        slots.push(slot)?;
    }
    Ok(())
}
