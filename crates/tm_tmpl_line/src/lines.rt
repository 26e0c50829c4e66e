// The form of each statement, behind its first word.
ghost use Rattle.std.specs.Prelude.{◌≡◌, ◌+◌, Ok, Err, IfOk, IfErr, All, drop, codes, ◌≤◌};
ghost use Rattle.tm_lex.specs.Lines as lexed;
ghost use Rattle.tm_tmpl_line.specs.Readings as readings;

use crate::words::{Whom, asm_at, class_at, end_at, kind_at, name_at, number_at, whom_at};
use crate::{Kind, Selector, SlotText, TmplFault};
use tm_lex::Token;

/// The name behind `template`: 1 to 16 bytes.
pub fn template_line<'a>(text: &'a [u8], line: &[Token]) -> Result<&'a [u8], TmplFault>
    requires { All (lexed.IsSpan text.now) line.now }
    ensures ok { IfOk result (λ name. readings.template_line (lexed.lexemes text.now (drop 1 line.now))
        ≡ Ok (readings.template name.now, lexed.lexemes text.now (drop 3 line.now))) }
    ensures err { IfErr result (λ e. readings.template_line (lexed.lexemes text.now (drop 1 line.now)) ≡ Err e) }
{
    let name = name_at(text, line, 1)?;
    end_at(text, line, 2)?;
    Ok(name)
}

/// The number behind `passes`, as it is written.
pub fn passes_line(text: &[u8], line: &[Token]) -> Result<u32, TmplFault>
    requires { All (lexed.IsSpan text.now) line.now }
    ensures ok { IfOk result (λ n. readings.passes_line (lexed.lexemes text.now (drop 1 line.now))
        ≡ Ok (readings.passes n, lexed.lexemes text.now (drop 3 line.now))) }
    ensures err { IfErr result (λ e. readings.passes_line (lexed.lexemes text.now (drop 1 line.now)) ≡ Err e) }
{
    last_number(text, line, 1)
}

/// The number, the kind and the lines of a window, as they are written.
pub fn window_line(text: &[u8], line: &[Token]) -> Result<(u32, Kind, u32), TmplFault>
    requires { All (lexed.IsSpan text.now) line.now }
    ensures ok { IfOk result (λ w. readings.window_line (lexed.lexemes text.now (drop 1 line.now))
        ≡ Ok (readings.window w.0 w.1 w.2, lexed.lexemes text.now (drop 5 line.now))) }
    ensures err { IfErr result (λ e. readings.window_line (lexed.lexemes text.now (drop 1 line.now)) ≡ Err e) }
{
    let number = number_at(text, line, 1)?;
    let kind = kind_at(text, line, 2)?;
    let lines = last_number(text, line, 3)?;
    Ok((number, kind, lines))
}

/// The name behind `case`: 1 to 16 bytes.
pub fn case_line<'a>(text: &'a [u8], line: &[Token]) -> Result<&'a [u8], TmplFault>
    requires { All (lexed.IsSpan text.now) line.now }
    ensures ok { IfOk result (λ name. readings.case_line (lexed.lexemes text.now (drop 1 line.now))
        ≡ Ok (readings.case_of name.now, lexed.lexemes text.now (drop 3 line.now))) }
    ensures err { IfErr result (λ e. readings.case_line (lexed.lexemes text.now (drop 1 line.now)) ≡ Err e) }
{
    let name = name_at(text, line, 1)?;
    end_at(text, line, 2)?;
    Ok(name)
}

/// Whom the body is for, behind `body`.
pub fn body_line(text: &[u8], line: &[Token]) -> Result<Selector, TmplFault>
    requires { All (lexed.IsSpan text.now) line.now }
    ensures ok { IfOk result (λ whom. readings.body_line (lexed.lexemes text.now (drop 1 line.now))
        ≡ Ok (readings.body whom, lexed.lexemes text.now (drop (readings.body_len whom) line.now))) }
    ensures err { IfErr result (λ e. readings.body_line (lexed.lexemes text.now (drop 1 line.now)) ≡ Err e) }
{
    match whom_at(text, line, 1)? {
        Whom::All => {
            end_at(text, line, 2)?;
            Ok(Selector::All)
        }
        Whom::Hart => Ok(Selector::Hart(last_number(text, line, 2)?)),
        Whom::Core => Ok(Selector::Core(last_number(text, line, 2)?)),
        Whom::Thread => Ok(Selector::Thread(last_number(text, line, 2)?)),
    }
}

/// The assembler line behind `emit`: the raw token, not read further.
pub fn emit_line<'a>(text: &'a [u8], line: &[Token]) -> Result<&'a [u8], TmplFault>
    requires { All (lexed.IsSpan text.now) line.now }
    ensures ok { IfOk result (λ asm. readings.emit_line (lexed.lexemes text.now (drop 1 line.now))
        ≡ Ok (readings.slot (SlotText.Emit asm.now), lexed.lexemes text.now (drop 3 line.now))) }
    ensures err { IfErr result (λ e. readings.emit_line (lexed.lexemes text.now (drop 1 line.now)) ≡ Err e) }
{
    let asm = asm_at(text, line, 1)?;
    end_at(text, line, 2)?;
    Ok(asm)
}

/// The number of slots and the weights behind `mix`, as they are written.
pub fn mix_line(text: &[u8], line: &[Token]) -> Result<SlotText, TmplFault>
    requires { All (lexed.IsSpan text.now) line.now }
    ensures ok { IfOk result (λ mix. readings.mix_line (lexed.lexemes text.now (drop 1 line.now))
        ≡ Ok (readings.slot mix, lexed.lexemes text.now (drop 11 line.now))) }
    ensures err { IfErr result (λ e. readings.mix_line (lexed.lexemes text.now (drop 1 line.now)) ≡ Err e) }
{
    let count = number_at(text, line, 1)?;
    let alu = weight_at(text, line, 2, b"alu")?;
    let load = weight_at(text, line, 4, b"load")?;
    let store = weight_at(text, line, 6, b"store")?;
    let branch = weight_at(text, line, 8, b"branch")?;
    end_at(text, line, 10)?;
    Ok(SlotText::Mix {
        count,
        alu,
        load,
        store,
        branch,
    })
}

// A class and its weight.
fn weight_at(text: &[u8], line: &[Token], at: usize, class: &[u8]) -> Result<u32, TmplFault>
    requires spans { All (lexed.IsSpan text.now) line.now }
    requires few { at ≤ 8 }
    ensures ok { IfOk result (λ n. readings.weight class.now (lexed.lexemes text.now (drop at line.now))
        ≡ Ok (n, lexed.lexemes text.now (drop (at + 2) line.now))) }
    ensures err { IfErr result (λ e. readings.weight class.now (lexed.lexemes text.now (drop at line.now)) ≡ Err e) }
{
    class_at(text, line, at, class)?;
    number_at(text, line, at + 1)
}

// A number that is the last word of its line.
fn last_number(text: &[u8], line: &[Token], at: usize) -> Result<u32, TmplFault>
    requires spans { All (lexed.IsSpan text.now) line.now }
    requires few { at ≤ 8 }
    ensures ok { IfOk result (λ n. readings.last_number (lexed.lexemes text.now (drop at line.now))
        ≡ Ok (n, lexed.lexemes text.now (drop (at + 2) line.now))) }
    ensures err { IfErr result (λ e. readings.last_number (lexed.lexemes text.now (drop at line.now)) ≡ Err e) }
{
    let number = number_at(text, line, at)?;
    end_at(text, line, at + 1)?;
    Ok(number)
}
