// The line of an event, with its numbers as they are written.
ghost use Rattle.std.specs.Prelude.{◌≡◌, ◌≤◌, ◌+◌, IfSome, length};
ghost use Rattle.tm_trace.specs.Fields as fields;

use crate::fields::{decimal_at, decimal_behind, hex_at, hex_behind, word_at};

/// The fewest bytes that the line of an event has, with its end: a hart of one digit, a program counter of 16, a word
/// of 8, `-` for no access, three blanks and the end.
pub const LEAST_LINE: u64 = 30;

/// Where an access reads or writes, and what.
#[derive(Clone, Copy)]
pub struct Place {
    pub addr: u64,
    pub width: u32,
    pub value: u64,
}

/// What an instruction did to memory.
#[derive(Clone, Copy)]
pub enum Touch {
    Nothing,
    Reads(Place),
    Writes(Place),
}

/// What the line of an event says.
#[derive(Clone, Copy)]
pub struct Line {
    pub hart: u32,
    pub pc: u64,
    pub word: u32,
    pub touch: Touch,
}

// The place of an access that stands next.
#[tactic(auto, unfolding(crate::specs::Fields::place_field))]
fn place_at(bytes: &[u8]) -> Option<(Place, &[u8])>
    ensures is { fields.IsField (fields.place_field bytes.now) result }
    ensures less { IfSome result (λ r. length r.1.now ≤ length bytes.now) }
{
    let (addr, rest) = hex_at(bytes, 16)?;
    let (width, rest) = decimal_behind(rest, b" ")?;
    let (value, rest) = hex_behind(rest, b" ", 16)?;
    let place = Place {
        addr,
        width: width as u32,
        value,
    };
    Some((place, rest))
}

fn reads_at(bytes: &[u8]) -> Option<(Touch, &[u8])>
    ensures is { fields.IsField (fields.touching Touch.Reads (fields.place_field bytes.now)) result }
    ensures less { IfSome result (λ r. length r.1.now ≤ length bytes.now) }
{
    let (place, rest) = place_at(bytes)?;
    Some((Touch::Reads(place), rest))
}

fn writes_at(bytes: &[u8]) -> Option<(Touch, &[u8])>
    ensures is { fields.IsField (fields.touching Touch.Writes (fields.place_field bytes.now)) result }
    ensures less { IfSome result (λ r. length r.1.now ≤ length bytes.now) }
{
    let (place, rest) = place_at(bytes)?;
    Some((Touch::Writes(place), rest))
}

// The access that stands next.
#[tactic(auto, unfolding(crate::specs::Fields::touch_field))]
fn touch_at(bytes: &[u8]) -> Option<(Touch, &[u8])>
    ensures is { fields.IsField (fields.touch_field bytes.now) result }
    ensures less { IfSome result (λ r. 1 + length r.1.now ≤ length bytes.now) }
{
    if bytes.starts_with(b"-") {
        return Some((Touch::Nothing, &bytes[1..]));
    }
    if bytes.starts_with(b"r ") {
        return reads_at(&bytes[2..]);
    }
    if bytes.starts_with(b"w ") {
        return writes_at(&bytes[2..]);
    }
    None
}

// The rest of a line, behind the blank after its word.
fn line_end(bytes: &[u8], hart: u32, pc: u64, word: u32) -> Option<(Line, &[u8])>
    ensures is { fields.IsField (fields.line_end hart pc word bytes.now) result }
    ensures less { IfSome result (λ r. 2 + length r.1.now ≤ length bytes.now) }
{
    let (touch, rest) = touch_at(bytes)?;
    let rest = word_at(rest, b"\n")?;
    let line = Line {
        hart,
        pc,
        word,
        touch,
    };
    Some((line, rest))
}

// The rest of a line, behind its hart.
fn behind_hart(bytes: &[u8], hart: u32) -> Option<(Line, &[u8])>
    ensures is { fields.IsField (fields.behind_hart hart bytes.now) result }
    ensures less { IfSome result (λ r. 29 + length r.1.now ≤ length bytes.now) }
{
    let (pc, rest) = hex_behind(bytes, b" ", 16)?;
    let (word, rest) = hex_behind(rest, b" ", 8)?;
    let rest = word_at(rest, b" ")?;
    line_end(rest, hart, pc, word as u32)
}

/// The line of an event that stands next, with its end.
#[tactic(auto, unfolding(crate::specs::Fields::line_field))]
pub fn line_at(bytes: &[u8]) -> Option<(Line, &[u8])>
    ensures is { fields.IsField (fields.line_field bytes.now) result }
    ensures less { IfSome result (λ r. LEAST_LINE + length r.1.now ≤ length bytes.now) }
{
    let (hart, rest) = decimal_at(bytes)?;
    behind_hart(rest, hart as u32)
}

/// The first line, with its end: the numbers of harts and events.
#[tactic(auto, unfolding(crate::specs::Fields::head_field))]
pub fn head_at(bytes: &[u8]) -> Option<((u32, u32), &[u8])>
    ensures is { fields.IsField (fields.head_field bytes.now) result }
    ensures less { IfSome result (λ r. length r.1.now ≤ length bytes.now) }
{
    let (harts, rest) = decimal_behind(bytes, b"trace 1 harts ")?;
    let (events, rest) = decimal_behind(rest, b" events ")?;
    let rest = word_at(rest, b"\n")?;
    Some(((harts as u32, events as u32), rest))
}
