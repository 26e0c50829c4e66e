// The slots of streams, and what may be done to them.
ghost use Rattle.std.specs.Prelude.{◌≡◌, option_map};
ghost use Rattle.tm_plan_cases.specs.Streams.{stream_in};
ghost use Rattle.tm_plan_script.specs.Accepted.{slot_in};
ghost use Rattle.tm_fault.specs.Script as script;

use crate::line::Kind;
use tm_plan_cases::{Cases, Stream};
use tm_plan_map::{is_branch, load_width, store_width};
use tm_table::{Instr, decode};

/// The stream of a hart in a case, if there is one.
pub fn stream_of(cases: &Cases, case: u32, hart: u32) -> Option<&Stream>
    ensures { option_map (λ s. s.now) result ≡ stream_in cases.now case hart }
{
    cases
        .cases
        .as_slice()
        .get(case as usize)?
        .streams
        .as_slice()
        .get(hart as usize)
}

/// How many slots it has.
pub fn slot_count(stream: Option<&Stream>) -> u64
    ensures { result ≡ script.slot_count (option_map (λ s. s.now) stream.entry) }
{
    match stream {
        Some(stream) => stream.words.as_slice().len() as u64,
        None => 0,
    }
}

/// The instruction in one of them, if there is one.
#[tactic(auto, unfolding(tm_plan_map::specs::Slots::instr_of))]
pub fn instr_at(stream: Option<&Stream>, slot: u32) -> Option<Instr>
    ensures { result ≡ slot_in (option_map (λ s. s.now) stream.entry) slot }
{
    decode(*stream?.words.as_slice().get(slot as usize)?)
}

/// Whether an action of this kind does something to an instruction.
pub fn suits(kind: Kind, i: Instr) -> bool
    ensures { result ≡ script.suits kind i }
{
    match kind {
        Kind::Result => 1 <= i.rd && i.rd <= 27,
        Kind::Loaded => 0 < load_width(i.op),
        Kind::Stored | Kind::Drop => 0 < store_width(i.op),
        Kind::Turn => is_branch(i.op),
    }
}
