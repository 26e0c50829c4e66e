// A template is read statement by statement, each part of it with the parts that it holds.
ghost use Rattle.std.specs.Prelude.{◌≡◌, ◌≢◌, ◌≤◌, ◌<◌, ◌^◌, ◌∷◌, [], Ok, Err, Some, None, IfOk, IfErr, IfSome, OnOk};
ghost use Rattle.std.specs.Prelude.{OnErr, All, length, codes};
ghost use Rattle.tm_lex.specs.Lines as lexed;
ghost use Rattle.tm_tmpl_line.specs.Readings as readings;
ghost use Rattle.tm_tmpl_read.specs.Grammar as grammar;
ghost use Rattle.tm_tmpl_read.specs.Steps as steps;

use crate::tokens::{line_len, opens};
use crate::{BodyDecl, CaseDecl, Selector, SlotDecl, SlotText, TmplFault, Want, WindowDecl};
use std::alloc::Global;
use tm_base::{List, Pos, Text};
use tm_lex::Token;
use tm_tmpl_line::{
    body_line, case_line, emit_line, mix_line, passes_line, template_line, window_line,
};

// The name, and the tokens behind its line.
pub fn read_name<'a>(
    alloc: Global,
    text: &[u8],
    tokens: &'a [Token],
) -> Result<(Text, &'a [Token]), TmplFault>
    requires { All (lexed.IsSpan text.now) tokens.now }
    ensures ok { IfOk result (λ r. steps.follows text.now tokens.now grammar.start
        ≡ grammar.more (steps.first_at tokens.now, readings.template r.0)
        (steps.follows text.now r.1.now grammar.head)) }
    ensures err { IfErr result (λ e. e ≢ TmplFault.NoMemory → steps.follows text.now tokens.now grammar.start ≡ Err e) }
    ensures spans { IfOk result (λ r. All (lexed.IsSpan text.now) r.1.now) }
{
    if tokens.is_empty() {
        return Err(TmplFault::Early {
            what: Want::Template,
        });
    }
    if !opens(text, tokens, b"template") {
        return Err(TmplFault::Expected {
            pos: tokens[0].at,
            what: Want::Template,
        });
    }
    let len = line_len(tokens);
    let name = copy(alloc, template_line(text, &tokens[..len])?)?;
    Ok((name, &tokens[len..]))
}

// The passes and where they stand, and the tokens behind their line.
pub fn read_passes<'a>(
    text: &[u8],
    tokens: &'a [Token],
) -> Result<(u32, Pos, &'a [Token]), TmplFault>
    requires { All (lexed.IsSpan text.now) tokens.now }
    ensures ok { IfOk result (λ r. steps.follows text.now tokens.now grammar.head
        ≡ grammar.more (r.1, readings.passes r.0) (steps.follows text.now r.2.now grammar.windows)) }
    ensures err { IfErr result (λ e. steps.follows text.now tokens.now grammar.head ≡ Err e) }
    ensures spans { IfOk result (λ r. All (lexed.IsSpan text.now) r.2.now) }
{
    if tokens.is_empty() {
        return Err(TmplFault::Early { what: Want::Passes });
    }
    let at = tokens[0].at;
    if !opens(text, tokens, b"passes") {
        return Err(TmplFault::Expected {
            pos: at,
            what: Want::Passes,
        });
    }
    let len = line_len(tokens);
    let passes = passes_line(text, &tokens[..len])?;
    Ok((passes, at, &tokens[len..]))
}

// The next window, if one comes next.
fn next_window<'a>(
    text: &[u8],
    tokens: &'a [Token],
) -> Result<Option<(WindowDecl, &'a [Token])>, TmplFault>
    requires { All (lexed.IsSpan text.now) tokens.now }
    ensures next { steps.IsNext (steps.follows text.now tokens.now grammar.windows) (λ w. steps.window_at w ∷ [])
        (λ rest. steps.follows text.now rest grammar.windows) (steps.case_next text.now tokens.now) result }
    ensures left { steps.IsLeft (lexed.IsSpan text.now) tokens.now result }
{
    if !opens(text, tokens, b"window") {
        return Ok(None);
    }
    let len = line_len(tokens);
    let at = tokens[0].at;
    let (number, kind, lines) = window_line(text, &tokens[..len])?;
    let window = WindowDecl {
        at,
        number,
        kind,
        lines,
    };
    Ok(Some((window, &tokens[len..])))
}

// The windows, and the tokens behind them.
pub fn read_windows<'a>(
    alloc: Global,
    text: &[u8],
    tokens: &'a [Token],
) -> Result<(List<WindowDecl>, &'a [Token]), TmplFault>
    requires { All (lexed.IsSpan text.now) tokens.now }
    ensures ok { IfOk result (λ r. steps.follows text.now tokens.now grammar.windows
        ≡ steps.more_all (steps.windows_at r.0) (steps.case_next text.now r.1.now)) }
    ensures err { IfErr result (λ e. e ≢ TmplFault.NoMemory → steps.follows text.now tokens.now grammar.windows
        ≡ Err e) }
    ensures spans { IfOk result (λ r. All (lexed.IsSpan text.now) r.1.now) }
{
    let mut windows = List::new(alloc);
    let mut rest = tokens;
    while let Some((window, behind)) = next_window(text, rest)? {
        if windows.push(window).is_err() {
            return Err(TmplFault::NoMemory);
        }
        rest = behind;
    }
    Ok((windows, rest))
}

// The next statement of a body, if one comes next.
fn next_slot<'a>(
    alloc: Global,
    text: &[u8],
    tokens: &'a [Token],
) -> Result<Option<(SlotDecl, &'a [Token])>, TmplFault>
    requires { All (lexed.IsSpan text.now) tokens.now }
    ensures next { steps.IsNext (steps.follows text.now tokens.now grammar.slots) (λ d. steps.slot_at d ∷ [])
        (λ rest. steps.follows text.now rest grammar.slots) (steps.body_next text.now tokens.now) result }
    ensures left { steps.IsLeft (lexed.IsSpan text.now) tokens.now result }
{
    if opens(text, tokens, b"emit") {
        let len = line_len(tokens);
        let at = tokens[0].at;
        let asm = copy(alloc, emit_line(text, &tokens[..len])?)?;
        let what = SlotText::Emit(asm);
        return Ok(Some((SlotDecl { at, what }, &tokens[len..])));
    }
    if opens(text, tokens, b"mix") {
        let len = line_len(tokens);
        let at = tokens[0].at;
        let what = mix_line(text, &tokens[..len])?;
        return Ok(Some((SlotDecl { at, what }, &tokens[len..])));
    }
    Ok(None)
}

// The statements of a body, and the tokens behind them.
fn read_slots<'a>(
    alloc: Global,
    text: &[u8],
    tokens: &'a [Token],
) -> Result<(List<SlotDecl>, &'a [Token]), TmplFault>
    requires { All (lexed.IsSpan text.now) tokens.now }
    ensures ok { IfOk result (λ r. steps.follows text.now tokens.now grammar.slots
        ≡ steps.more_all (steps.slots_at r.0) (steps.body_next text.now r.1.now)) }
    ensures err { IfErr result (λ e. e ≢ TmplFault.NoMemory → steps.follows text.now tokens.now grammar.slots ≡ Err e) }
    ensures left { IfOk result (λ r. (All (lexed.IsSpan text.now) r.1.now) × (length r.1.now ≤ length tokens.now)) }
{
    let mut slots = List::new(alloc);
    let mut rest = tokens;
    while let Some((slot, behind)) = next_slot(alloc, text, rest)? {
        if slots.push(slot).is_err() {
            return Err(TmplFault::NoMemory);
        }
        rest = behind;
    }
    Ok((slots, rest))
}

// The next body of a case, if one comes next.
fn next_body<'a>(
    alloc: Global,
    text: &[u8],
    tokens: &'a [Token],
) -> Result<Option<(BodyDecl, &'a [Token])>, TmplFault>
    requires { All (lexed.IsSpan text.now) tokens.now }
    ensures next { steps.IsNext (steps.body_next text.now tokens.now) steps.body_at (steps.body_next text.now)
        (steps.case_next text.now tokens.now) result }
    ensures left { steps.IsLeft (lexed.IsSpan text.now) tokens.now result }
{
    if !opens(text, tokens, b"body") {
        return Ok(None);
    }
    let len = line_len(tokens);
    let at = tokens[0].at;
    let whom = body_line(text, &tokens[..len])?;
    let (slots, rest) = read_slots(alloc, text, &tokens[len..])?;
    Ok(Some((BodyDecl { at, whom, slots }, rest)))
}

// The bodies of a case, and the tokens behind them.
fn read_bodies<'a>(
    alloc: Global,
    text: &[u8],
    tokens: &'a [Token],
) -> Result<(List<BodyDecl>, &'a [Token]), TmplFault>
    requires { All (lexed.IsSpan text.now) tokens.now }
    ensures ok { IfOk result (λ r. steps.body_next text.now tokens.now
        ≡ steps.more_all (steps.bodies_at r.0) (steps.case_next text.now r.1.now)) }
    ensures err { IfErr result (λ e. e ≢ TmplFault.NoMemory → steps.body_next text.now tokens.now ≡ Err e) }
    ensures left { IfOk result (λ r. (All (lexed.IsSpan text.now) r.1.now) × (length r.1.now ≤ length tokens.now)) }
{
    let mut bodies = List::new(alloc);
    let mut rest = tokens;
    while let Some((body, behind)) = next_body(alloc, text, rest)? {
        if bodies.push(body).is_err() {
            return Err(TmplFault::NoMemory);
        }
        rest = behind;
    }
    Ok((bodies, rest))
}

// The next case, if there is one.
fn next_case<'a>(
    alloc: Global,
    text: &[u8],
    tokens: &'a [Token],
) -> Result<Option<(CaseDecl, &'a [Token])>, TmplFault>
    requires { All (lexed.IsSpan text.now) tokens.now }
    ensures next { steps.IsNext (steps.case_next text.now tokens.now) steps.case_at (steps.case_next text.now) (Ok [])
        result }
    ensures left { steps.IsLeft (lexed.IsSpan text.now) tokens.now result }
{
    if tokens.is_empty() {
        return Ok(None);
    }
    let at = tokens[0].at;
    if !opens(text, tokens, b"case") {
        return Err(TmplFault::Expected {
            pos: at,
            what: Want::Statement,
        });
    }
    let len = line_len(tokens);
    let name = copy(alloc, case_line(text, &tokens[..len])?)?;
    let (bodies, rest) = read_bodies(alloc, text, &tokens[len..])?;
    Ok(Some((CaseDecl { at, name, bodies }, rest)))
}

// The cases, up to the text's end.
pub fn read_cases(alloc: Global, text: &[u8], tokens: &[Token]) -> Result<List<CaseDecl>, TmplFault>
    requires { All (lexed.IsSpan text.now) tokens.now }
    ensures ok { IfOk result (λ cases. steps.case_next text.now tokens.now
        ≡ steps.more_all (steps.cases_at cases) (Ok [])) }
    ensures err { IfErr result (λ e. e ≢ TmplFault.NoMemory → steps.case_next text.now tokens.now ≡ Err e) }
{
    let mut cases = List::new(alloc);
    let mut rest = tokens;
    while let Some((case, behind)) = next_case(alloc, text, rest)? {
        if cases.push(case).is_err() {
            return Err(TmplFault::NoMemory);
        }
        rest = behind;
    }
    Ok(cases)
}

// A copy of a part of the text.
fn copy(alloc: Global, part: &[u8]) -> Result<Text, TmplFault>
    ensures ok { IfOk result (λ copied. copied ≡ part.now) }
    ensures err { IfErr result (λ e. e ≡ TmplFault.NoMemory) }
{
    match Text::copy_of(alloc, part) {
        Ok(copied) => Ok(copied),
        Err(_) => Err(TmplFault::NoMemory),
    }
}
