// All lines of a script.
ghost use Rattle.std.specs.Prelude.{◌≡◌, ◌≢◌, ◌*◌, ◌^◌, ◌<◌, [], Ok, Err, IfOk, IfErr, IfSome, All, length};
ghost use Rattle.tm_plan_cases.specs.Shaped.{AreShaped};
ghost use Rattle.tm_lex.specs.Lines as lexed;
ghost use Rattle.tm_fault.specs.Script as script;
ghost use Rattle.tm_fault.specs.Spelled as spelled;
ghost use Rattle.tm_fault.specs.Causes as causes;
ghost use Rattle.tm_fault.specs.Marks as marked;

use crate::FaultScriptFault;
use crate::line::line_at;
use crate::marks::{CASE_ENTRIES, Marks};
use std::alloc::Global;
use tm_base::Pos;
use tm_lex::{LexFault, Token, tokens};
use tm_plan_cases::Cases;
use tm_plan_script::{FaultLine, Faults};

// The place of the first token.
fn first_at(tokens: &[Token]) -> Pos
    ensures { (text : _) → result ≡ script.first_at (lexed.lexemes text tokens.now) }
{
    match tokens {
        [token, ..] => token.at,
        [] => Pos { line: 1, col: 1 },
    }
}

// The next line, behind those that the table tells of.
fn next_line<'a>(
    text: &[u8],
    tokens: &'a [Token],
    cases: &Cases,
    marks: &Marks,
) -> Result<(FaultLine, &'a [Token]), FaultScriptFault>
    requires spans { All (lexed.IsSpan text.now) tokens.now }
    requires shaped { AreShaped cases.now }
    requires entries { length marks.now ≡ length cases.now.cases * CASE_ENTRIES }
    ensures reads { (before : _) → marked.AreMarks before marks.now
        → script.Reads text.now (script.next_line cases.now before) tokens.now result }
    ensures tabled { IfOk result (λ r. marked.IsTabled (length marks.now) r.0) }
{
    let (line, rest) = line_at(text, tokens, cases)?;
    if marks.has(line) {
        return Err(FaultScriptFault::Twice {
            pos: first_at(tokens),
        });
    }
    Ok((line, rest))
}

// The next line behind those that the table tells of, if there is one.
fn next_of<'a>(
    text: &[u8],
    tokens: &'a [Token],
    cases: &Cases,
    marks: &Marks,
) -> Result<Option<(FaultLine, &'a [Token])>, FaultScriptFault>
    requires spans { All (lexed.IsSpan text.now) tokens.now }
    requires shaped { AreShaped cases.now }
    requires entries { length marks.now ≡ length cases.now.cases * CASE_ENTRIES }
    ensures next { (before : _) → marked.AreMarks before marks.now
        → script.IsNext cases.now text.now before tokens.now result }
    ensures tabled { IfOk result (λ o. IfSome o (λ r. marked.IsTabled (length marks.now) r.0)) }
{
    if tokens.is_empty() {
        return Ok(None);
    }
    match next_line(text, tokens, cases, marks) {
        Ok((line, rest)) => Ok(Some((line, rest))),
        Err(fault) => Err(fault),
    }
}

// The table of some cases before any line.
fn marks_of(alloc: Global, cases: &Cases) -> Result<Marks, FaultScriptFault>
    requires { AreShaped cases.now }
    ensures marks { IfOk result (λ m. marked.AreMarks [] m) }
    ensures long { IfOk result (λ m. length m ≡ length cases.now.cases * CASE_ENTRIES) }
    ensures err { IfErr result (λ e. e ≡ FaultScriptFault.NoMemory) }
{
    match Marks::none(alloc, cases.cases.as_slice().len()) {
        Ok(marks) => Ok(marks),
        Err(_) => Err(FaultScriptFault::NoMemory),
    }
}

// The lines of tokens.
fn read_lines(
    alloc: Global,
    text: &[u8],
    tokens: &[Token],
    cases: &Cases,
) -> Result<Faults, FaultScriptFault>
    requires spans { All (lexed.IsSpan text.now) tokens.now }
    requires shaped { AreShaped cases.now }
    ensures ok { IfOk result (λ lines. script.of_tokens cases.now text.now (Ok tokens.now) ≡ Ok lines) }
    ensures err { IfErr result (λ e. e ≢ FaultScriptFault.NoMemory
        → script.of_tokens cases.now text.now (Ok tokens.now) ≡ Err e) }
{
    let mut marks = marks_of(alloc, cases)?;
    let mut faults = Faults::nothing(alloc);
    let mut rest = tokens;
    while let Some((line, behind)) = next_of(text, rest, cases, &marks)? {
        if faults.put(line).is_err() {
            return Err(FaultScriptFault::NoMemory);
        }
        marks.put(line);
        rest = behind;
    }
    Ok(faults)
}

// A fault of the tokens, as one of the script.
fn of_tokens(fault: LexFault) -> FaultScriptFault
    ensures cause { result ≢ FaultScriptFault.NoMemory
        → (fault ≢ LexFault.NoMemory) × (result ≡ FaultScriptFault.Lex fault) }
{
    match fault {
        LexFault::BadByte { pos, byte } => FaultScriptFault::Lex(LexFault::BadByte { pos, byte }),
        LexFault::LongWord { pos } => FaultScriptFault::Lex(LexFault::LongWord { pos }),
        LexFault::NoMemory => FaultScriptFault::NoMemory,
    }
}

/// Reads a fault script over a program's cases: the lines that the text spells, each accepted; or the first fault of
/// its first line with one. Where the text has no tokens, the fault is theirs.
pub fn parse_faults(alloc: Global, text: &[u8], cases: &Cases) -> Result<Faults, FaultScriptFault>
    requires size { length text.now < 2 ^ 31 }
    requires shaped { AreShaped cases.now }
    ensures ok { IfOk result (λ lines. script.script_of cases.now text.now ≡ Ok lines) }
    ensures err { IfErr result (λ e. e ≢ FaultScriptFault.NoMemory → script.script_of cases.now text.now ≡ Err e) }

    // The tokens of the text stand for the lines, one for one, and each line is accepted; or the fault is that of the
    // first line with one, at the first of its tokens that doesn't stand at its place. A text that is a script is read
    // as it, and one that has a fault is refused for it.
    ensures script { IfOk result (λ lines. spelled.IsScript cases.now text.now lines) }
    ensures fault { IfErr result (λ e. e ≢ FaultScriptFault.NoMemory → causes.IsFaultOf cases.now text.now e) }
    ensures only { (lines : _) → spelled.IsScript cases.now text.now lines → spelled.IsOrNoMemory lines result }
    ensures refused { (e : _) → causes.IsFaultOf cases.now text.now e → spelled.IsFaultOrNoMemory e result }
{
    match tokens(alloc, text) {
        Ok(list) => read_lines(alloc, text, list.as_slice(), cases),
        Err(fault) => Err(of_tokens(fault)),
    }
}
