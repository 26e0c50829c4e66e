// The faults of a template's grammar, as they are told.
ghost use Rattle.std.specs.Prelude.{◌≡◌, ◌++◌, OnOk};
ghost use Rattle.tm_top_line.specs.Inputs.{lex_text, tmpl_text, want_text};

use tm_base::{Bytes, NoMemory, push_decimal, push_pos};
use tm_lex::LexFault;
use tm_tmpl_types::{TmplFault, Want};

fn name_of_want(what: Want) -> &'static [u8]
    ensures { result.now ≡ want_text what }
{
    match what {
        Want::Template => b"Template",
        Want::Passes => b"Passes",
        Want::Name => b"Name",
        Want::Number => b"Number",
        Want::Kind => b"Kind",
        Want::Selector => b"Selector",
        Want::Asm => b"Asm",
        Want::Class => b"Class",
        Want::LineEnd => b"LineEnd",
        Want::Statement => b"Statement",
    }
}

/// The fault of a text's tokens.
pub fn put_tokens(out: &mut Bytes, fault: &LexFault) -> Result<(), NoMemory>
    ensures { OnOk result (out.new ≡ out.old ++ lex_text fault.now) }
{
    match fault {
        LexFault::BadByte { pos, byte } => {
            out.append(b"BadByte ")?;
            push_pos(out, *pos)?;
            out.push(b' ')?;
            push_decimal(out, u64::from(*byte))
        }
        LexFault::LongWord { pos } => {
            out.append(b"LongWord ")?;
            push_pos(out, *pos)
        }
        LexFault::NoMemory => Ok(()),
    }
}

pub fn put_grammar(out: &mut Bytes, fault: &TmplFault) -> Result<(), NoMemory>
    ensures { OnOk result (out.new ≡ out.old ++ tmpl_text fault.now) }
{
    match fault {
        TmplFault::Lex(fault) => {
            out.append(b"Lex ")?;
            put_tokens(out, fault)
        }
        TmplFault::Early { what } => {
            out.append(b"Early ")?;
            out.append(name_of_want(*what))
        }
        TmplFault::Expected { pos, what } => {
            out.append(b"Expected ")?;
            push_pos(out, *pos)?;
            out.push(b' ')?;
            out.append(name_of_want(*what))
        }
        TmplFault::NoMemory => Ok(()),
    }
}
