// What a token is read as, by its kind and its bytes.
ghost use Rattle.std.specs.Prelude.{◌≡◌};
ghost use Rattle.std.specs.List.{list_all};
ghost use Rattle.tm_lex.specs.Lines as lines;

use crate::TokenKind;
use tm_base::NAME_BYTES;

/// Whether a token is a word.
pub fn is_word(kind: TokenKind) -> bool
    ensures { result ≡ lines.is_word kind }
{
    match kind {
        TokenKind::Word => true,
        _ => false,
    }
}

/// Whether a token is the rest of a line behind `emit`.
pub fn is_raw(kind: TokenKind) -> bool
    ensures { result ≡ lines.is_raw kind }
{
    match kind {
        TokenKind::Raw => true,
        _ => false,
    }
}

/// Whether a word is a name: not too long, of small letters, digits and `_`, the first a letter.
pub fn is_name(word: &[u8]) -> bool
    ensures { result ≡ lines.is_name word.now }
{
    if word.is_empty() {
        return false;
    }
    if word.len() > NAME_BYTES {
        return false;
    }
    if !is_letter(word[0]) {
        return false;
    }
    has_name_bytes(word)
}

fn has_name_bytes(word: &[u8]) -> bool
    ensures { result ≡ list_all lines.is_name_byte word.now }
{
    word.iter().all(|byte| is_name_byte(*byte))
}

fn is_letter(byte: u8) -> bool
    ensures { result ≡ lines.is_letter byte }
{
    if byte < b'a' {
        return false;
    }
    byte <= b'z'
}

fn is_digit(byte: u8) -> bool
    ensures { result ≡ lines.is_digit byte }
{
    if byte < b'0' {
        return false;
    }
    byte <= b'9'
}

fn is_name_byte(byte: u8) -> bool
    ensures { result ≡ lines.is_name_byte byte }
{
    if is_letter(byte) {
        return true;
    }
    if is_digit(byte) {
        return true;
    }
    byte == b'_'
}
