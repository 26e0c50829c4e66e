ghost use Rattle.std.specs.Prelude.{◌≡◌, ◌≢◌, ◌^◌, ◌<◌, ◌≤◌, ◌+◌, ◌==◌, Ok, Err, IfOk, IfErr, All, length, count_by};
ghost use Rattle.std.specs.Prelude.{not};
ghost use Rattle.std.specs.List.{suffix_len};
ghost use Rattle.tm_lex.specs.Lines as lexed;
ghost use Rattle.tm_tmpl_read.specs.Grammar as grammar;
ghost use Rattle.tm_tmpl_read.specs.Spelled as spelled;
ghost use Rattle.tm_tmpl_read.specs.Writable.{IsWritable};
ghost use Rattle.tm_tmpl_read.specs.Steps as steps;

use crate::read::{read_cases, read_name, read_passes, read_windows};
use crate::{Template, TmplFault};
use std::alloc::Global;
use tm_base::Pos;
use tm_lex::{LexFault, Token, tokens};

/// Reads a template: the one that the text spells, or the first place at which the text leaves the grammar. Where the
/// text has no tokens, the fault is theirs.
pub fn parse_template(alloc: Global, text: &[u8]) -> Result<Template, TmplFault>
    requires { length text.now < 2 ^ 31 }
    ensures ok { IfOk result (λ t. grammar.template_of text.now ≡ Ok t) }
    ensures err { IfErr result (λ e. e ≢ TmplFault.NoMemory → grammar.template_of text.now ≡ Err e) }

    // Each token of the text stands for the next piece of the template, one for one; or the text leaves every
    // template at the fault, and at no place before. A text that spells a template is read as it.
    ensures spelled { IfOk result (λ t. spelled.IsSpelled text.now t) }
    ensures left { IfErr result (λ e. spelled.IsFaultOf text.now e) }
    ensures only { (t : Template) → spelled.IsSpelled text.now t → spelled.IsOrNoMemory t result }
    ensures writable { IfOk result IsWritable }
    ensures stated { IfErr result grammar.IsStatedFault }
{
    match tokens(alloc, text) {
        Ok(list) => read_tokens(alloc, text, list.as_slice()),
        Err(fault) => Err(of_tokens(fault)),
    }
}

// A fault of the tokens, as one of the template.
fn of_tokens(fault: LexFault) -> TmplFault
    ensures cause { result ≢ TmplFault.NoMemory → (fault ≢ LexFault.NoMemory) × (result ≡ TmplFault.Lex fault) }
{
    match fault {
        LexFault::BadByte { pos, byte } => TmplFault::Lex(LexFault::BadByte { pos, byte }),
        LexFault::LongWord { pos } => TmplFault::Lex(LexFault::LongWord { pos }),
        LexFault::NoMemory => TmplFault::NoMemory,
    }
}

// The template of tokens.
fn read_tokens(alloc: Global, text: &[u8], tokens: &[Token]) -> Result<Template, TmplFault>
    requires spans { All (lexed.IsSpan text.now) tokens.now }
    requires size { length text.now < 2 ^ 31 }
    ensures ok { IfOk result (λ t. grammar.made_of text.now (steps.follows text.now tokens.now grammar.start) ≡ Ok t) }
    ensures err { IfErr result (λ e. e ≢ TmplFault.NoMemory
        → grammar.made_of text.now (steps.follows text.now tokens.now grammar.start) ≡ Err e) }
{
    let (name, tokens) = read_name(alloc, text, tokens)?;
    let (passes, passes_at, tokens) = read_passes(text, tokens)?;
    let (windows, tokens) = read_windows(alloc, text, tokens)?;
    let cases = read_cases(alloc, text, tokens)?;
    Ok(Template {
        name,
        passes,
        passes_at,
        windows,
        cases,
        end: end_of(text),
    })
}

// The place of a text's end.
fn end_of(text: &[u8]) -> Pos
    requires { length text.now < 2 ^ 31 }
    ensures { result ≡ grammar.end_of text.now }
{
    Pos {
        line: lines_of(text) as u32 + 1,
        col: last_len(text) as u32 + 1,
    }
}

// How many lines end in a text.
fn lines_of(text: &[u8]) -> usize
    ensures count { result ≡ count_by (λ b. b == 10) text.now }
    ensures within { result ≤ length text.now }
{
    text.iter().filter(|byte| **byte == b'\n').count()
}

// The length of a text's last line.
fn last_len(text: &[u8]) -> usize
    ensures len { result ≡ suffix_len (λ b. not (b == 10)) text.now }
    ensures within { result ≤ length text.now }
{
    text.iter().rev().take_while(|byte| **byte != b'\n').count()
}
