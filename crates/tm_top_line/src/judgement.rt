// The text of a judgement.
ghost use Rattle.std.specs.Prelude.{◌≡◌, ◌++◌, IfOk, OnOk};
ghost use Rattle.tm_top_line.specs.Judgements as texts;

use crate::values::{put_addr, put_value};
use std::alloc::Global;
use tm_base::{Bytes, NoMemory, Text, push_decimal, push_hex};
use tm_judge::{Answer, Judgement, Why};

// A word of 32 bits in hexadecimal.
#[tactic(auto, unfolding(crate::specs::Judgements::word_text))]
fn put_word(out: &mut Bytes, word: u32) -> Result<(), NoMemory>
    ensures { OnOk result (out.new ≡ out.old ++ texts.word_text word) }
{
    out.append(b"0x")?;
    push_hex(out, u64::from(word), 8)
}

// The byte that had to be read at an address.
#[tactic(auto, unfolding(crate::specs::Judgements::byte_text))]
fn put_byte(out: &mut Bytes, addr: u64, held: u8) -> Result<(), NoMemory>
    ensures { OnOk result (out.new ≡ out.old ++ texts.byte_text addr held) }
{
    out.append(b"Byte ")?;
    put_addr(out, addr)?;
    out.push(b' ')?;
    push_decimal(out, u64::from(held))
}

// Why an event breaks a run.
fn put_why(out: &mut Bytes, why: Why) -> Result<(), NoMemory>
    ensures { OnOk result (out.new ≡ out.old ++ texts.why_text why) }
{
    match why {
        Why::AfterHalt => out.append(b"AfterHalt"),
        Why::Pc { wanted } => {
            out.append(b"Pc ")?;
            put_addr(out, wanted)
        }
        Why::Word { wanted } => {
            out.append(b"Word ")?;
            put_word(out, wanted)
        }
        Why::Stuck => out.append(b"Stuck"),
        Why::Step => out.append(b"Step"),
        Why::Early { hart } => put_value(out, b"Early", u64::from(hart)),
        Why::Byte { addr, held } => put_byte(out, addr, held),
    }
}

// The place of the event that breaks a run, and why it does.
#[tactic(auto, unfolding(crate::specs::Judgements::no_text))]
fn put_no(out: &mut Bytes, place: u64, why: Why) -> Result<(), NoMemory>
    ensures { OnOk result (out.new ≡ out.old ++ texts.no_text place why) }
{
    out.append(b"no, event ")?;
    push_decimal(out, place)?;
    out.push(b' ')?;
    put_why(out, why)
}

fn put_answer(out: &mut Bytes, answer: Answer) -> Result<(), NoMemory>
    ensures { OnOk result (out.new ≡ out.old ++ texts.answer_text answer) }
{
    match answer {
        Answer::Yes => out.append(b"yes"),
        Answer::No { place, why } => put_no(out, place, why),
    }
}

// The line of a question and its answer.
#[tactic(auto, unfolding(crate::specs::Judgements::answer_line))]
fn put_line(out: &mut Bytes, question: &[u8], answer: Answer) -> Result<(), NoMemory>
    ensures { OnOk result (out.new ≡ out.old ++ texts.answer_line question.now answer) }
{
    out.append(question)?;
    out.append(b": ")?;
    put_answer(out, answer)?;
    out.push(b'\n')
}

/// The text of a judgement: whether the run is a path, plain and legal, each with its LF; else the place of the least
/// event that breaks it, and why it does.
#[tactic(auto, unfolding(crate::specs::Judgements::judgement_text))]
pub fn judgement_text(alloc: Global, judgement: &Judgement) -> Result<Text, NoMemory>
    ensures { IfOk result (λ text. text ≡ texts.judgement_text judgement.now) }
{
    let mut out = Bytes::new(alloc);
    put_line(&mut out, b"path", judgement.path)?;
    put_line(&mut out, b"plain", judgement.plain)?;
    put_line(&mut out, b"legal", judgement.legal)?;
    Ok(out)
}
