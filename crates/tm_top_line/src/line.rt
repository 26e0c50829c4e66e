// The line of a fault.
ghost use Rattle.std.specs.Prelude.{◌≡◌, ◌++◌, IfOk, IsFalse, OnOk};
ghost use Rattle.tm_top_line.specs.Inputs.{input_text};
ghost use Rattle.tm_top_line.specs.Lines.{any_text, desk_text, elf_text, fault_text, image_text, role_name};
ghost use Rattle.tm_top_line.specs.Lines.{wants_memory};

use crate::fault::AnyFault;
use crate::grammar::put_grammar;
use crate::rule::put_rule;
use crate::script::put_script;
use crate::topology::put_topology;
use crate::trace::{put_judge, put_trace};
use crate::values::put_value;
use std::alloc::Global;
use tm_base::{Bytes, NoMemory, Text};
use tm_desk::DeskError;
use tm_refusals::{ElfFault, ImageFault, InputFault, Role};

fn name_of_role(role: Role) -> &'static [u8]
    ensures { result.now ≡ role_name role }
{
    match role {
        Role::Topology => b"topology",
        Role::Template => b"template",
        Role::Image => b"image",
        Role::Faults => b"faults",
        Role::Trace => b"trace",
        Role::Output => b"output",
    }
}

fn put_input(out: &mut Bytes, fault: &InputFault) -> Result<(), NoMemory>
    ensures { OnOk result (out.new ≡ out.old ++ input_text fault.now) }
{
    match fault {
        InputFault::Topo(fault) => {
            out.append(b"Topo ")?;
            put_topology(out, fault)
        }
        InputFault::Tmpl(fault) => {
            out.append(b"Tmpl ")?;
            put_grammar(out, fault)
        }
        InputFault::Rule(broken) => {
            out.append(b"Rule ")?;
            put_rule(out, broken)
        }
    }
}

fn put_elf(out: &mut Bytes, fault: ElfFault) -> Result<(), NoMemory>
    ensures { OnOk result (out.new ≡ out.old ++ elf_text fault) }
{
    match fault {
        ElfFault::Short { have } => put_value(out, b"Short", have),
        ElfFault::BadMagic => out.append(b"BadMagic"),
        ElfFault::NotRiscv { machine } => put_value(out, b"NotRiscv", u64::from(machine)),
        ElfFault::NotExec { kind } => put_value(out, b"NotExec", u64::from(kind)),
        ElfFault::BadHeader { field } => put_value(out, b"BadHeader", u64::from(field)),
        ElfFault::BadSegment { index } => put_value(out, b"BadSegment", u64::from(index)),
        ElfFault::NoPlan => out.append(b"NoPlan"),
        ElfFault::BadSymbol { index } => put_value(out, b"BadSymbol", index),
        ElfFault::Differs { offset } => put_value(out, b"Differs", offset),
        ElfFault::NoMemory => Ok(()),
    }
}

fn put_image(out: &mut Bytes, fault: &ImageFault) -> Result<(), NoMemory>
    ensures { OnOk result (out.new ≡ out.old ++ image_text fault.now) }
{
    match fault {
        ImageFault::Elf(fault) => {
            out.append(b"Elf ")?;
            put_elf(out, *fault)
        }
        ImageFault::Inputs(fault) => {
            out.append(b"Inputs ")?;
            put_input(out, fault)
        }
        ImageFault::Differs { offset } => put_value(out, b"Differs", *offset),
        ImageFault::NoMemory => Ok(()),
    }
}

fn put_desk(out: &mut Bytes, fault: DeskError) -> Result<(), NoMemory>
    ensures { OnOk result (out.new ≡ out.old ++ desk_text fault) }
{
    match fault {
        DeskError::Failed => out.append(b"Failed"),
        DeskError::TooLong { max } => put_value(out, b"TooLong", max),
        DeskError::NoMemory => Ok(()),
    }
}

fn put_fault(out: &mut Bytes, fault: &AnyFault) -> Result<(), NoMemory>
    ensures { OnOk result (out.new ≡ out.old ++ any_text fault.now) }
{
    match fault {
        AnyFault::Input(fault) => put_input(out, fault),
        AnyFault::Image(fault) => put_image(out, fault),
        AnyFault::Script(fault) => put_script(out, *fault),
        AnyFault::Desk(fault) => put_desk(out, *fault),
        AnyFault::Trace(fault) => put_trace(out, *fault),
        AnyFault::Judge(fault) => put_judge(out, *fault),
    }
}

/// The printed line of a refusal or of a failure, with its LF: the role of the file, and the names of the fault's
/// variants from outside in, each with its values. Want of memory has another line.
#[tactic(auto, unfolding(crate::specs::Lines::fault_text))]
pub fn fault_line(alloc: Global, role: Role, fault: &AnyFault) -> Result<Text, NoMemory>
    requires { IsFalse (wants_memory fault.now) }
    ensures { IfOk result (λ text. text ≡ fault_text role fault.now) }
{
    let mut out = Bytes::new(alloc);
    out.append(b"threadmill: ")?;
    out.append(name_of_role(role))?;
    out.append(b": ")?;
    put_fault(&mut out, fault)?;
    out.push(b'\n')?;
    Ok(out)
}
