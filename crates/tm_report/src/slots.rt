// The lines of slots.
ghost use Rattle.std.specs.Prelude.{◌≡◌, ◌++◌, OnOk};
ghost use Rattle.tm_plan_map.specs.Slots.{instr_of};
ghost use Rattle.tm_report.specs.Listing.{slot_line, slot_lines, word_text};

use tm_asm_line::print_line;
use tm_base::{Bytes, NoMemory, push_decimal, push_hex};
use tm_table::decode;

#[tactic(auto, unfolding(tm_plan_map::specs::Slots::instr_of))]
fn put_form(out: &mut Bytes, word: u32) -> Result<(), NoMemory>
    ensures { OnOk result (out.new ≡ out.old ++ word_text (instr_of word)) }
{
    match decode(word) {
        Some(i) => print_line(out, i),
        None => Ok(()),
    }
}

#[tactic(auto, unfolding(crate::specs::Listing::slot_line))]
fn put_slot(out: &mut Bytes, i: u64, word: u32) -> Result<(), NoMemory>
    ensures { OnOk result (out.new ≡ out.old ++ slot_line i word) }
{
    push_decimal(out, i)?;
    out.push(b' ')?;
    push_hex(out, u64::from(word), 8)?;
    out.push(b' ')?;
    put_form(out, word)?;
    out.push(b'\n')
}

/// Puts a line for each word of a stream.
pub fn put_slots(out: &mut Bytes, words: &[u32]) -> Result<(), NoMemory>
    ensures { OnOk result (out.new ≡ out.old ++ slot_lines 0 words.now) }
{
    for (i, word) in words.iter().enumerate() {
        put_slot(out, i as u64, *word)?;
    }
    Ok(())
}
