// Bytes by their kinds, and how many of a kind stand in a row.
ghost use Rattle.std.specs.Prelude.{ℕ, ◌≡◌, ◌≢◌, ◌++◌, ◌+◌, ◌^◌, ◌<◌, ◌≤◌, Ok, Err, Some, None, OnOk, IfOk, IfErr};
ghost use Rattle.std.specs.Prelude.{IsTrue, length, drop, option_map, not, ◌==◌, ◌||◌, ◌-◌, IfSome, slice_index};
ghost use Rattle.std.specs.Prelude.{codes, map, [], ◌∷◌};
ghost use Rattle.std.specs.Str.{bytes_eq};
ghost use Rattle.std.specs.List.{prefix_len, suffix_len};
ghost use Rattle.tm_lex.specs.Lexing as lexing;

// The length of the first line.
pub fn line_len(text: &[u8]) -> usize
    ensures len { result ≡ prefix_len (λ b. not (b == 10)) text.now }
    ensures within { result ≤ length text.now }
{
    text.iter().take_while(|byte| **byte != b'\n').count()
}

// The length of a line without its comment.
pub fn content_len(line: &[u8]) -> usize
    ensures len { result ≡ prefix_len (λ b. not (b == 35)) line.now }
    ensures within { result ≤ length line.now }
{
    line.iter().take_while(|byte| **byte != b'#').count()
}

pub fn may_stand(byte: u8) -> bool
    ensures { result ≡ (lexing.is_word byte || lexing.is_separator byte) }
{
    if is_word(byte) {
        return true;
    }
    is_separator(byte)
}

#[tactic(auto, unfolding(crate::specs::Lexing::is_separator))]
pub fn is_separator(byte: u8) -> bool
    ensures { result ≡ lexing.is_separator byte }
{
    if byte == b' ' {
        return true;
    }
    if byte == b'\t' {
        return true;
    }
    byte == b'\r'
}

#[tactic(auto, unfolding(crate::specs::Lexing::is_word))]
pub fn is_word(byte: u8) -> bool
    ensures { result ≡ lexing.is_word byte }
{
    if byte < 0x21 {
        return false;
    }
    if byte > 0x7E {
        return false;
    }
    byte != b'#'
}

// How many bytes stand in front of the first word.
pub fn gap_len(bytes: &[u8]) -> usize
    ensures len { result ≡ prefix_len (λ b. not (lexing.is_word b)) bytes.now }
    ensures within { result ≤ length bytes.now }
{
    bytes.iter().take_while(|byte| !is_word(**byte)).count()
}

// How many word bytes stand in front in a row.
pub fn word_len(bytes: &[u8]) -> usize
    ensures len { result ≡ prefix_len lexing.is_word bytes.now }
    ensures within { result ≤ length bytes.now }
{
    bytes.iter().take_while(|byte| is_word(**byte)).count()
}

pub fn separators_len(bytes: &[u8]) -> usize
    ensures len { result ≡ prefix_len lexing.is_separator bytes.now }
    ensures within { result ≤ length bytes.now }
{
    bytes.iter().take_while(|byte| is_separator(**byte)).count()
}

pub fn trailing_len(bytes: &[u8]) -> usize
    ensures len { result ≡ suffix_len lexing.is_separator bytes.now }
    ensures within { result ≤ length bytes.now }
{
    bytes
        .iter()
        .rev()
        .take_while(|byte| is_separator(**byte))
        .count()
}
