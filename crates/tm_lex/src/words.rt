// The words of a line, and the raw part after `emit`.
ghost use Rattle.std.specs.Prelude.{ℕ, ◌≡◌, ◌≢◌, ◌++◌, ◌+◌, ◌^◌, ◌<◌, ◌≤◌, Ok, Err, Some, None, OnOk, IfOk, IfErr};
ghost use Rattle.std.specs.Prelude.{IsTrue, length, drop, option_map, not, ◌==◌, ◌||◌, ◌-◌, IfSome, slice_index};
ghost use Rattle.std.specs.Prelude.{codes, map, [], ◌∷◌};
ghost use Rattle.std.specs.Str.{bytes_eq};
ghost use Rattle.std.specs.List.{prefix_len, suffix_len};
ghost use Rattle.tm_lex.specs.Lexing as lexing;

use crate::bytes::{gap_len, separators_len, trailing_len, word_len};

// The next word of a line from a place on.
pub fn next_word(bytes: &[u8], at: usize) -> Option<(usize, usize)>
    requires { at ≤ length bytes.now }
    ensures { lexing.IsNextWord bytes.now at result }
{
    let start = at + gap_len(&bytes[at..]);
    let len = word_len(&bytes[start..]);
    if len == 0 {
        None
    } else {
        Some((start, start + len))
    }
}

pub fn is_emit(word: &[u8]) -> bool
    ensures { result ≡ bytes_eq word.now (codes "emit") }
{
    word == b"emit".as_slice()
}

// Bytes that begin at a place without the separators at their ends, if something is left.
pub fn trimmed(bytes: &[u8], from: usize) -> Option<(usize, usize)>
    requires { from + length bytes.now < 2 ^ 32 }
    ensures part { lexing.as_list result ≡ lexing.trimmed from bytes.now }
    ensures begins { IfSome result (λ s. s.0 < from + length bytes.now) }
    ensures ends { IfSome result (λ s. s.1 ≤ from + length bytes.now) }
{
    let front = separators_len(bytes);
    if front == bytes.len() {
        return None;
    }
    Some((from + front, from + bytes.len() - trailing_len(bytes)))
}
