// The script of faults that a run asks for.
ghost use Rattle.std.specs.Prelude.{◌≡◌, ◌≤◌, IsTrue, IfErr, IfOk, Some, length};
ghost use Rattle.tm_plan_cases.specs.Shaped.{AreShaped};
ghost use Rattle.tm_fault.specs.Script.{script_of};
ghost use Rattle.tm_top_line.specs.Scripts.{script_wants};
ghost use Rattle.tm_top_owed.specs.Changes.{desk_change};
ghost use Rattle.tm_top_run.specs.Steps.{IsRead, IsScriptRead, ScriptStop, TextStop};

use std::alloc::Global;
use tm_base::{Bytes, Name};
use tm_desk::Desk;
use tm_fault::{FaultScriptFault, parse_faults};
use tm_lex::LexFault;
use tm_plan_cases::Cases;
use tm_plan_script::Faults;
use tm_refusals::Role;
use tm_top_line::AnyFault;
use tm_top_owed::{FAULTS_BYTES, Stop, read_input};

// Whether a fault is want of memory.
fn is_want(fault: FaultScriptFault) -> bool
    ensures { result ≡ script_wants fault }
{
    match fault {
        FaultScriptFault::NoMemory => true,
        FaultScriptFault::Lex(fault) => match fault {
            LexFault::NoMemory => true,
            LexFault::BadByte { .. } | LexFault::LongWord { .. } => false,
        },
        FaultScriptFault::Expected { .. }
        | FaultScriptFault::OutOfRange { .. }
        | FaultScriptFault::NoEffect { .. }
        | FaultScriptFault::Twice { .. } => false,
    }
}

// The lines of a text.
fn read_text(alloc: Global, text: &Bytes, cases: &Cases) -> Result<Faults, Stop>
    requires size { length text.now ≤ FAULTS_BYTES }
    requires shaped { AreShaped cases.now }
    ensures ok { IfOk result (λ lines. IsRead cases.now text.now lines) }
    ensures err { IfErr result (λ stop. TextStop stop (script_of cases.now text.now)) }
{
    match parse_faults(alloc, text.as_slice(), cases) {
        Ok(faults) => Ok(faults),
        Err(fault) => {
            if is_want(fault) {
                return Err(Stop::NoMemory);
            }
            Err(Stop::Refused(Role::Faults, AnyFault::Script(fault)))
        }
    }
}

// Reads the script of a name.
fn read_named<D: Desk>(
    alloc: Global,
    name: &Name,
    cases: &Cases,
    desk: &mut D,
) -> Result<Faults, Stop>
    requires shaped { AreShaped cases.now }
    ensures ok { IfOk result (λ lines.
        IsScriptRead (Some name.now) cases.now D.tells (D.held desk.old) lines) }
    ensures unchanged { IsTrue D.tells → D.held desk.new ≡ D.held desk.old }
    ensures later { D.faults desk.old ≤ D.faults desk.new }
    ensures cause { IfErr result (λ stop. ScriptStop stop (Some name.now) cases.now
        (desk_change D.tells D.held D.faults desk.old desk.new)) }
{
    let text = match read_input(desk, Role::Faults, name.as_str(), FAULTS_BYTES) {
        Ok(text) => text,
        Err(stop) => return Err(stop),
    };
    match read_text(alloc, &text, cases) {
        Ok(faults) => Ok(faults),
        Err(stop) => Err(stop),
    }
}

/// Reads the script of faults that is asked for, over a program's cases, or stops where it isn't held, is too long or
/// is refused. Where none is asked for there are no lines.
pub fn read_script<D: Desk>(
    alloc: Global,
    name: &Option<Name>,
    cases: &Cases,
    desk: &mut D,
) -> Result<Faults, Stop>
    requires shaped { AreShaped cases.now }
    ensures ok { IfOk result (λ lines. IsScriptRead name.now cases.now D.tells (D.held desk.old) lines) }
    ensures unchanged { IsTrue D.tells → D.held desk.new ≡ D.held desk.old }
    ensures later { D.faults desk.old ≤ D.faults desk.new }
    ensures cause { IfErr result (λ stop. ScriptStop stop name.now cases.now
        (desk_change D.tells D.held D.faults desk.old desk.new)) }
{
    match name {
        Some(name) => read_named(alloc, name, cases, desk),
        None => Ok(Faults::nothing(alloc)),
    }
}
