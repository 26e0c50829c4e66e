// What single tokens are read as, each with the tokens behind it.
ghost use Rattle.std.specs.Prelude.{◌≡◌, ◌<◌, ◌-◌, ◌^◌, ◌*◌, IfOk, All, take, drop, true};
ghost use Rattle.tm_lex.specs.Lines as lexed;
ghost use Rattle.tm_fault.specs.Script as script;

use crate::line::Kind;
use crate::slots::suits;
use crate::{FaultScriptFault, Want2};
use tm_base::{Pos, read_number};
use tm_lex::{Token, TokenKind, is_word};
use tm_table::Instr;

// The place of what no token has.
fn nowhere() -> Pos
    ensures { result ≡ script.nowhere }
{
    Pos { line: 1, col: 1 }
}

// The bytes of a token.
fn bytes_of(text: &[u8], token: Token) -> &[u8]
    requires { lexed.IsSpan text.now token }
    ensures { result.now ≡ take (token.to - token.from) (drop token.from text.now) }
{
    &text[token.from as usize..token.to as usize]
}

/// That a word stands next.
pub fn word_at<'a>(
    text: &[u8],
    tokens: &'a [Token],
    word: &[u8],
) -> Result<&'a [Token], FaultScriptFault>
    requires { All (lexed.IsSpan text.now) tokens.now }
    ensures { script.Passes text.now (script.one Want2.Word (lexed.keyword word.now)) tokens.now result }
{
    let [token, rest @ ..] = tokens else {
        return Err(FaultScriptFault::Expected {
            pos: nowhere(),
            what: Want2::Word,
        });
    };
    let token = *token;
    if is_word(token.kind) && bytes_of(text, token) == word {
        return Ok(rest);
    }
    Err(FaultScriptFault::Expected {
        pos: token.at,
        what: Want2::Word,
    })
}

/// That the line ends there.
pub fn end_at<'a>(text: &[u8], tokens: &'a [Token]) -> Result<&'a [Token], FaultScriptFault>
    requires { All (lexed.IsSpan text.now) tokens.now }
    ensures { script.Passes text.now (script.one Want2.LineEnd lexed.line_end) tokens.now result }
{
    let [token, rest @ ..] = tokens else {
        return Err(FaultScriptFault::Expected {
            pos: nowhere(),
            what: Want2::LineEnd,
        });
    };
    match token.kind {
        TokenKind::LineEnd => Ok(rest),
        _ => Err(FaultScriptFault::Expected {
            pos: token.at,
            what: Want2::LineEnd,
        }),
    }
}

// The number that a token is.
fn number_of(text: &[u8], token: Token) -> Option<u64>
    requires { lexed.IsSpan text.now token }
    ensures { result ≡ script.number (token, take (token.to - token.from) (drop token.from text.now)) }
{
    if !is_word(token.kind) {
        return None;
    }
    match read_number(bytes_of(text, token)) {
        Ok(number) => Some(number),
        Err(_) => None,
    }
}

/// The number that stands next, below a limit.
pub fn index_at<'a>(
    text: &[u8],
    tokens: &'a [Token],
    limit: u64,
) -> Result<(u64, &'a [Token]), FaultScriptFault>
    requires { All (lexed.IsSpan text.now) tokens.now }
    ensures reads { script.Reads text.now (script.index limit) tokens.now result }
    ensures below { IfOk result (λ r. r.0 < limit) }
{
    let [token, rest @ ..] = tokens else {
        return Err(FaultScriptFault::Expected {
            pos: nowhere(),
            what: Want2::Number,
        });
    };
    let token = *token;
    let Some(number) = number_of(text, token) else {
        return Err(FaultScriptFault::Expected {
            pos: token.at,
            what: Want2::Number,
        });
    };
    if number < limit {
        return Ok((number, rest));
    }
    Err(FaultScriptFault::OutOfRange {
        pos: token.at,
        value: number,
    })
}

// Whether a token is `*`.
fn is_star(text: &[u8], token: Token) -> bool
    requires { lexed.IsSpan text.now token }
    ensures { result ≡ script.is_star (token, take (token.to - token.from) (drop token.from text.now)) }
{
    is_word(token.kind) && bytes_of(text, token) == b"*".as_slice()
}

/// The pass that stands next, of so many.
pub fn pass_at<'a>(
    text: &[u8],
    tokens: &'a [Token],
    passes: u32,
) -> Result<(Option<u32>, &'a [Token]), FaultScriptFault>
    requires { All (lexed.IsSpan text.now) tokens.now }
    ensures { script.Reads text.now (script.pass_index passes) tokens.now result }
{
    let [token, rest @ ..] = tokens else {
        return Err(FaultScriptFault::Expected {
            pos: nowhere(),
            what: Want2::Number,
        });
    };
    let token = *token;
    if is_star(text, token) {
        return Ok((None, rest));
    }
    let Some(number) = number_of(text, token) else {
        return Err(FaultScriptFault::Expected {
            pos: token.at,
            what: Want2::Number,
        });
    };
    if number < u64::from(passes) {
        return Ok((Some(number as u32), rest));
    }
    Err(FaultScriptFault::OutOfRange {
        pos: token.at,
        value: number,
    })
}

/// The number of an action that stands next: from 1 on, and with at most the bits of so many bytes.
pub fn xor_at<'a>(
    text: &[u8],
    tokens: &'a [Token],
    width: u8,
) -> Result<(u64, &'a [Token]), FaultScriptFault>
    requires spans { All (lexed.IsSpan text.now) tokens.now }
    requires width { script.IsWidth width }
    ensures { script.Reads text.now (script.xor (2 ^ (8 * width))) tokens.now result }
{
    let [token, rest @ ..] = tokens else {
        return Err(FaultScriptFault::Expected {
            pos: nowhere(),
            what: Want2::Number,
        });
    };
    let token = *token;
    let Some(number) = number_of(text, token) else {
        return Err(FaultScriptFault::Expected {
            pos: token.at,
            what: Want2::Number,
        });
    };
    if is_in_range(number, width) {
        return Ok((number, rest));
    }
    Err(FaultScriptFault::OutOfRange {
        pos: token.at,
        value: number,
    })
}

// Whether a number is from 1 on, and has at most the bits of so many bytes.
fn is_in_range(number: u64, width: u8) -> bool
    requires { script.IsWidth width }
    ensures { result ≡ script.is_in_range (2 ^ (8 * width)) number }
{
    if number < 1 {
        return false;
    }
    match width {
        1 => number < 0x100,
        2 => number < 0x1_0000,
        4 => number < 0x1_0000_0000,
        _ => true,
    }
}

// The kind of action that a word names.
fn kind_of(word: &[u8]) -> Option<Kind>
    ensures { result ≡ script.kind_of word.now }
{
    if word == b"result".as_slice() {
        return Some(Kind::Result);
    }
    if word == b"loaded".as_slice() {
        return Some(Kind::Loaded);
    }
    if word == b"stored".as_slice() {
        return Some(Kind::Stored);
    }
    if word == b"drop".as_slice() {
        return Some(Kind::Drop);
    }
    if word == b"turn".as_slice() {
        return Some(Kind::Turn);
    }
    None
}

// The kind of action that a token is.
fn action_kind(text: &[u8], token: Token) -> Option<Kind>
    requires { lexed.IsSpan text.now token }
    ensures { result ≡ script.action_kind (token, take (token.to - token.from) (drop token.from text.now)) }
{
    if !is_word(token.kind) {
        return None;
    }
    kind_of(bytes_of(text, token))
}

/// The kind of the action that stands next, with the instruction of its slot.
pub fn kind_at<'a>(
    text: &[u8],
    tokens: &'a [Token],
    slot: Option<Instr>,
) -> Result<(Kind, Instr, &'a [Token]), FaultScriptFault>
    requires { All (lexed.IsSpan text.now) tokens.now }
    ensures reads { script.ReadsKind text.now slot tokens.now result }
    ensures suits { IfOk result (λ r. script.suits r.0 r.1 ≡ true) }
{
    let [token, rest @ ..] = tokens else {
        return Err(FaultScriptFault::Expected {
            pos: nowhere(),
            what: Want2::Action,
        });
    };
    let token = *token;
    let Some(kind) = action_kind(text, token) else {
        return Err(FaultScriptFault::Expected {
            pos: token.at,
            what: Want2::Action,
        });
    };
    let Some(instr) = slot else {
        return Err(FaultScriptFault::NoEffect { pos: token.at });
    };
    if suits(kind, instr) {
        return Ok((kind, instr, rest));
    }
    Err(FaultScriptFault::NoEffect { pos: token.at })
}
