// A text is read line by line.
ghost use Rattle.std.specs.Prelude.{ℕ, ◌≡◌, ◌≢◌, ◌++◌, ◌+◌, ◌^◌, ◌<◌, ◌≤◌, Ok, Err, Some, None, OnOk, IfOk, IfErr};
ghost use Rattle.std.specs.Prelude.{IsTrue, length, drop, option_map, not, ◌==◌, ◌||◌, ◌-◌, IfSome, slice_index};
ghost use Rattle.std.specs.Prelude.{codes, map, [], ◌∷◌};
ghost use Rattle.std.specs.Str.{bytes_eq};
ghost use Rattle.std.specs.List.{prefix_len, suffix_len};
ghost use Rattle.tm_lex.specs.Lexing as lexing;
ghost use Rattle.tm_lex.specs.Tiling as tiling;

use crate::bytes::{content_len, line_len};
use crate::faults::{bad_byte, first_fault, long_part};
use crate::words::{is_emit, next_word, trimmed};
use crate::{LexFault, Token, TokenKind};
use std::alloc::Global;
use tm_base::{List, Pos};

/// The tokens of a text, or its first fault. They stand in order, each at a part of the text.
pub fn tokens(alloc: Global, text: &[u8]) -> Result<List<Token>, LexFault>
    requires { length text.now < 2 ^ 31 }
    ensures ok { IfOk result (λ ts. lexing.tokens_of text.now ≡ Ok ts) }
    ensures err { IfErr result (λ e. e ≢ LexFault.NoMemory → lexing.tokens_of text.now ≡ Err e) }

    // The words and gaps of each line tile it, and nothing is wrong in any; or the fault is the first place at which
    // something is wrong.
    ensures tiled { IfOk result (λ ts. tiling.AreTokens text.now ts) }
    ensures first { IfErr result (λ e. e ≢ LexFault.NoMemory → tiling.IsFirstFault text.now e) }
    ensures in_order { IfOk result (λ ts. tiling.AreInOrder 0 (length text.now) ts) }
{
    read_lines(alloc, text)
}

// Reads line after line.
fn read_lines(alloc: Global, text: &[u8]) -> Result<List<Token>, LexFault>
    requires { length text.now < 2 ^ 31 }
    ensures ok { IfOk result (λ ts. lexing.tokens_of text.now ≡ Ok ts) }
    ensures err { IfErr result (λ e. e ≢ LexFault.NoMemory → lexing.tokens_of text.now ≡ Err e) }
{
    let mut out = List::new(alloc);
    let mut number: u32 = 1;
    let mut from: usize = 0;
    loop {
        let len = line_len(&text[from..]);
        let end = from + len;
        put_line(&mut out, &text[from..end], number, from as u64)?;
        if end == text.len() {
            return Ok(out);
        }
        from = end + 1;
        number += 1;
    }
}

// Appends a line's tokens, unless it has a fault.
#[tactic(auto, unfolding(crate::specs::Lexing::line_fault, crate::specs::Lexing::line_tokens))]
fn put_line(out: &mut List<Token>, line: &[u8], number: u32, from: u64) -> Result<(), LexFault>
    requires number { number + length line.now < 2 ^ 32 }
    requires from { from + length line.now < 2 ^ 32 - 1 }
    ensures ok { OnOk result ((lexing.line_fault number line.now ≡ None)
        × (out.new ≡ out.old ++ lexing.line_tokens number from line.now)) }
    ensures err { IfErr result (λ e. e ≢ LexFault.NoMemory → lexing.line_fault number line.now ≡ Some e) }
{
    let bytes = &line[..content_len(line)];
    if let Some(fault) = first_fault(number, bytes, bad_byte(bytes), long_part(bytes)) {
        return Err(fault);
    }
    put_spans(out, bytes, number, from)?;
    if has_word(bytes) {
        put_token(
            out,
            TokenKind::LineEnd,
            number,
            from,
            line.len(),
            line.len(),
        )?;
    }
    Ok(())
}

#[tactic(auto, unfolding(crate::specs::Lexing::spans))]
fn has_word(bytes: &[u8]) -> bool
    ensures { result ≡ not (length (lexing.spans bytes.now) == 0) }
{
    match next_word(bytes, 0) {
        Some(_) => true,
        None => false,
    }
}

// Appends the words of a line, or `emit` and the raw part after it.
#[tactic(auto, unfolding(crate::specs::Lexing::spans))]
fn put_spans(out: &mut List<Token>, bytes: &[u8], number: u32, start: u64) -> Result<(), LexFault>
    requires { start + length bytes.now < 2 ^ 32 }
    ensures ok { OnOk result (out.new ≡ out.old ++ map (lexing.token_at number start) (lexing.spans bytes.now)) }
    ensures err { IfErr result (λ e. e ≡ LexFault.NoMemory) }
{
    let Some((from, to)) = next_word(bytes, 0) else {
        return Ok(());
    };
    put_token(out, TokenKind::Word, number, start, from, to)?;
    if is_emit(&bytes[from..to]) {
        if let Some((first, last)) = trimmed(&bytes[to..], to) {
            put_token(out, TokenKind::Raw, number, start, first, last)?;
        }
        return Ok(());
    }
    put_words(out, bytes, to, number, start)
}

// Appends the words of a line from a place on.
fn put_words(
    out: &mut List<Token>,
    bytes: &[u8],
    at: usize,
    number: u32,
    start: u64,
) -> Result<(), LexFault>
    requires within { at ≤ length bytes.now }
    requires small { start + length bytes.now < 2 ^ 32 }
    ensures ok { OnOk result (out.new ≡ out.old ++ map (lexing.token_at number start)
        (lexing.as_words (lexing.words at (drop at bytes.now)))) }
    ensures err { IfErr result (λ e. e ≡ LexFault.NoMemory) }
{
    let mut at = at;
    while let Some((from, to)) = next_word(bytes, at) {
        put_token(out, TokenKind::Word, number, start, from, to)?;
        at = to;
    }
    Ok(())
}

// Appends the token at a part of a line.
fn put_token(
    out: &mut List<Token>,
    kind: TokenKind,
    number: u32,
    start: u64,
    from: usize,
    to: usize,
) -> Result<(), LexFault>
    requires small { start + to < 2 ^ 32 }
    requires column { from + 1 < 2 ^ 32 }
    ensures ok { OnOk result (out.new ≡ out.old ++ lexing.token_at number start (kind, (from, to)) ∷ []) }
    ensures err { IfErr result (λ e. e ≡ LexFault.NoMemory) }
{
    let token = Token {
        kind,
        at: Pos {
            line: number,
            col: from as u32 + 1,
        },
        from: start + from as u64,
        to: start + to as u64,
    };
    match out.push(token) {
        Ok(()) => Ok(()),
        Err(_) => Err(LexFault::NoMemory),
    }
}
