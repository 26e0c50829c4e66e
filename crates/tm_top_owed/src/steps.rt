// The steps of a command at the desk and at the sink: each ends, or stops the command with its cause.
ghost use Rattle.std.specs.Prelude.{◌≡◌, ◌++◌, ◌≤◌, ℕ, IsTrue, IfOk, OnOk, IfErr, OnErr, length, take, Some};
ghost use Rattle.tm_desk.specs.Causes.{OthersStay};
ghost use Rattle.tm_refusals.specs.declared.role.Role.TheVariants as roles;
ghost use Rattle.tm_top_owed.specs.Steps.{ReadStop, PutStop};

use crate::stop::Stop;
use tm_base::{Bytes, Text};
use tm_desk::{Desk, DeskError, Sink, SinkError, put_all};
use tm_refusals::Role;
use tm_top_line::AnyFault;

/// Reads the file of a role, of at most `max` bytes.
pub fn read_input<D: Desk>(desk: &mut D, role: Role, name: &str, max: u64) -> Result<Bytes, Stop>
    ensures within { IfOk result (λ bytes. length bytes ≤ max) }
    ensures whole { IsTrue D.tells → IfOk result (λ bytes. D.held desk.old name.now ≡ Some bytes) }
    ensures unchanged { IsTrue D.tells → D.held desk.new ≡ D.held desk.old }
    ensures later { D.faults desk.old ≤ D.faults desk.new }
    ensures cause { IfErr result (λ stop.
        ReadStop stop role (IsTrue D.tells) (D.held desk.old name.now) max (D.faults desk.old) (D.faults desk.new)) }
{
    match desk.read(name, max) {
        Ok(bytes) => Ok(bytes),
        Err(DeskError::NoMemory) => Err(Stop::NoMemory),
        Err(DeskError::Failed) => Err(Stop::Failed(role)),
        Err(DeskError::TooLong { max: limit }) => Err(Stop::Refused(
            role,
            AnyFault::Desk(DeskError::TooLong { max: limit }),
        )),
    }
}

/// Writes the file of a role.
pub fn write_output<D: Desk>(desk: &mut D, role: Role, name: &str, file: &Bytes) -> Result<(), Stop>
    ensures written { IsTrue D.tells → OnOk result (D.held desk.new name.now ≡ Some file.now) }
    ensures others { IsTrue D.tells → OthersStay (D.held desk.old) (D.held desk.new) name.now }
    ensures later { D.faults desk.old ≤ D.faults desk.new }
    ensures cause { IfErr result (λ stop. PutStop stop role (D.faults desk.old) (D.faults desk.new)) }
{
    match desk.write(name, file.as_slice()) {
        Ok(()) => Ok(()),
        Err(DeskError::NoMemory) => Err(Stop::NoMemory),
        Err(DeskError::Failed | DeskError::TooLong { max: _ }) => Err(Stop::Failed(role)),
    }
}

/// Prints a text.
pub fn print_text<O: Sink>(out: &mut O, text: &Text) -> Result<(), Stop>
    ensures all { IsTrue O.tells → OnOk result (O.taken out.new ≡ O.taken out.old ++ text.now) }
    ensures front { IsTrue O.tells → OnErr result ((n : ℕ) × (O.taken out.new ≡ O.taken out.old ++ take n text.now)) }
    ensures cause { IfErr result (λ stop. PutStop stop roles.Output (O.faults out.old) (O.faults out.new)) }
{
    match put_all(out, text.as_slice()) {
        Ok(()) => Ok(()),
        Err(SinkError::NoMemory) => Err(Stop::NoMemory),
        Err(SinkError::Failed) => Err(Stop::Failed(Role::Output)),
    }
}
