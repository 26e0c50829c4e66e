// The faults of a script, as they are told.
ghost use Rattle.std.specs.Prelude.{◌≡◌, ◌++◌, OnOk};
ghost use Rattle.tm_top_line.specs.Scripts.{number_text, place_text, script_text, want_text};

use crate::grammar::put_tokens;
use tm_base::{Bytes, NoMemory, Pos, push_decimal, push_pos};
use tm_fault::{FaultScriptFault, Want2};

fn name_of_want(what: Want2) -> &'static [u8]
    ensures { result.now ≡ want_text what }
{
    match what {
        Want2::Word => b"Word",
        Want2::Number => b"Number",
        Want2::Action => b"Action",
        Want2::LineEnd => b"LineEnd",
    }
}

// A variant's name and its place.
fn put_place(out: &mut Bytes, name: &[u8], pos: Pos) -> Result<(), NoMemory>
    ensures { OnOk result (out.new ≡ out.old ++ place_text name.now pos) }
{
    out.append(name)?;
    out.push(b' ')?;
    push_pos(out, pos)
}

// A number, behind a space.
fn put_number(out: &mut Bytes, value: u64) -> Result<(), NoMemory>
    ensures { OnOk result (out.new ≡ out.old ++ number_text value) }
{
    out.push(b' ')?;
    push_decimal(out, value)
}

/// The fault of a script.
pub fn put_script(out: &mut Bytes, fault: FaultScriptFault) -> Result<(), NoMemory>
    ensures { OnOk result (out.new ≡ out.old ++ script_text fault) }
{
    match fault {
        FaultScriptFault::Lex(fault) => {
            out.append(b"Lex ")?;
            put_tokens(out, &fault)
        }
        FaultScriptFault::Expected { pos, what } => {
            put_place(out, b"Expected", pos)?;
            out.push(b' ')?;
            out.append(name_of_want(what))
        }
        FaultScriptFault::OutOfRange { pos, value } => {
            put_place(out, b"OutOfRange", pos)?;
            put_number(out, value)
        }
        FaultScriptFault::NoEffect { pos } => put_place(out, b"NoEffect", pos),
        FaultScriptFault::Twice { pos } => put_place(out, b"Twice", pos),
        FaultScriptFault::NoMemory => Ok(()),
    }
}
