// The first fault of a line.
ghost use Rattle.std.specs.Prelude.{ℕ, ◌≡◌, ◌≢◌, ◌++◌, ◌+◌, ◌^◌, ◌<◌, ◌≤◌, Ok, Err, Some, None, OnOk, IfOk, IfErr};
ghost use Rattle.std.specs.Prelude.{IsTrue, length, drop, option_map, not, ◌==◌, ◌||◌, ◌-◌, IfSome, slice_index};
ghost use Rattle.std.specs.Prelude.{codes, map, [], ◌∷◌};
ghost use Rattle.std.specs.Str.{bytes_eq};
ghost use Rattle.std.specs.List.{prefix_len, suffix_len};
ghost use Rattle.tm_lex.specs.Lexing as lexing;

use crate::LexFault;
use crate::bytes::may_stand;
use crate::words::{is_emit, next_word, trimmed};
use tm_base::{Pos, WORD_BYTES};

// Where the first part of more bytes than a word may have begins.
#[tactic(auto, unfolding(crate::specs::Lexing::spans))]
pub fn long_part(bytes: &[u8]) -> Option<usize>
    requires { length bytes.now < 2 ^ 32 - 1 }
    ensures place { result ≡ lexing.long_part (lexing.spans bytes.now) }
    ensures within { IfSome result (λ p. p < length bytes.now) }
{
    let (from, to) = next_word(bytes, 0)?;
    if to > from + WORD_BYTES {
        return Some(from);
    }
    if is_emit(&bytes[from..to]) {
        return match trimmed(&bytes[to..], to) {
            Some((first, last)) if last > first + WORD_BYTES => Some(first),
            _ => None,
        };
    }
    long_word(bytes, to)
}

// Where the first byte is that may not stand outside comments.
pub fn bad_byte(bytes: &[u8]) -> Option<usize>
    ensures place { result ≡ lexing.bad_byte bytes.now }
    ensures within { IfSome result (λ p. p < length bytes.now) }
{
    bytes.iter().position(|byte| !may_stand(*byte))
}

// The first of two faults of a line.
pub fn first_fault(
    number: u32,
    bytes: &[u8],
    bad: Option<usize>,
    long: Option<usize>,
) -> Option<LexFault>
    requires number { number + length bytes.now < 2 ^ 32 }
    requires bad { IfSome bad (λ p. p < length bytes.now) }
    requires long { IfSome long (λ p. p < length bytes.now) }
    ensures { result ≡ lexing.first_fault number bytes.now bad long }
{
    match (bad, long) {
        (None, None) => None,
        (Some(p), None) => Some(bad_at(number, bytes, p)),
        (None, Some(q)) => Some(long_at(number, q)),
        (Some(p), Some(q)) => {
            if q < p {
                Some(long_at(number, q))
            } else {
                Some(bad_at(number, bytes, p))
            }
        }
    }
}

fn bad_at(number: u32, bytes: &[u8], p: usize) -> LexFault
    requires within { p < length bytes.now }
    requires small { length bytes.now < 2 ^ 32 }
    ensures { result ≡ LexFault.BadByte (record { line = number; col = p + 1 }) (slice_index bytes.now p) }
{
    LexFault::BadByte {
        pos: Pos {
            line: number,
            col: p as u32 + 1,
        },
        byte: bytes[p],
    }
}

fn long_at(number: u32, q: usize) -> LexFault
    requires { q < 2 ^ 32 - 1 }
    ensures { result ≡ LexFault.LongWord (record { line = number; col = q + 1 }) }
{
    LexFault::LongWord {
        pos: Pos {
            line: number,
            col: q as u32 + 1,
        },
    }
}

// Where the first word of more than 64 bytes begins, from a place on.
fn long_word(bytes: &[u8], at: usize) -> Option<usize>
    requires { at ≤ length bytes.now }
    ensures place { result ≡ lexing.long_part (lexing.as_words (lexing.words at (drop at bytes.now))) }
    ensures within { IfSome result (λ p. p < length bytes.now) }
{
    let mut at = at;
    while let Some((from, to)) = next_word(bytes, at) {
        if to > from + WORD_BYTES {
            return Some(from);
        }
        at = to;
    }
    None
}
