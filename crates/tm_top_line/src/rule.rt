// The rules of a template that are broken, as they are told.
ghost use Rattle.std.specs.Prelude.{◌≡◌, ◌++◌, OnOk};
ghost use Rattle.tm_asm_line.specs.Shapes.{name_of};
ghost use Rattle.tm_top_line.specs.Inputs.{asm_text, rule_at_text, rule_text};

use crate::values::{put_addr, put_signed, put_value};
use tm_asm_line::{AsmFault, op_name};
use tm_base::{Bytes, NoMemory, push_pos};
use tm_refusals::{RuleAt, RuleFault};
use tm_table::Op;

fn put_line(out: &mut Bytes, fault: &AsmFault) -> Result<(), NoMemory>
    ensures { OnOk result (out.new ≡ out.old ++ asm_text fault.now) }
{
    match fault {
        AsmFault::UnknownName => out.append(b"UnknownName"),
        AsmFault::BadRegister { place } => put_value(out, b"BadRegister", *place),
        AsmFault::BadNumber { place } => put_value(out, b"BadNumber", *place),
        AsmFault::OutOfRange { value } => {
            out.append(b"OutOfRange ")?;
            put_signed(out, value)
        }
        AsmFault::BadShape { place } => put_value(out, b"BadShape", *place),
    }
}

fn put_op(out: &mut Bytes, op: Op) -> Result<(), NoMemory>
    ensures { OnOk result (out.new ≡ out.old ++ name_of op) }
{
    out.append(op_name(op))
}

fn put_fault(out: &mut Bytes, fault: &RuleFault) -> Result<(), NoMemory>
    ensures { OnOk result (out.new ≡ out.old ++ rule_text fault.now) }
{
    match fault {
        RuleFault::Cases { n } => put_value(out, b"Cases", *n),
        RuleFault::Passes { n } => put_value(out, b"Passes", u64::from(*n)),
        RuleFault::Slots { n } => put_value(out, b"Slots", *n),
        RuleFault::Lines { n } => put_value(out, b"Lines", u64::from(*n)),
        RuleFault::NoWindow { w } => put_value(out, b"NoWindow", u64::from(*w)),
        RuleFault::Register { x } => put_value(out, b"Register", u64::from(*x)),
        RuleFault::Asm(fault) => {
            out.append(b"Asm ")?;
            put_line(out, fault)
        }
        RuleFault::NotAllowed { name } => {
            out.append(b"NotAllowed ")?;
            put_op(out, *name)
        }
        RuleFault::BadPlace { addr } => {
            out.append(b"BadPlace ")?;
            put_addr(out, *addr)
        }
        RuleFault::NotOwner { hart, addr } => {
            put_value(out, b"NotOwner", u64::from(*hart))?;
            out.push(b' ')?;
            put_addr(out, *addr)
        }
        RuleFault::Target { slot, offset } => {
            put_value(out, b"Target", u64::from(*slot))?;
            out.push(b' ')?;
            put_signed(out, &i128::from(*offset))
        }
        RuleFault::NoWeight { sum } => put_value(out, b"NoWeight", *sum),
        RuleFault::NoHart { n } => put_value(out, b"NoHart", u64::from(*n)),
        RuleFault::TwiceBody { h } => put_value(out, b"TwiceBody", u64::from(*h)),
        RuleFault::TwiceName => out.append(b"TwiceName"),
    }
}

/// A broken rule, behind its place.
pub fn put_rule(out: &mut Bytes, broken: &RuleAt) -> Result<(), NoMemory>
    ensures { OnOk result (out.new ≡ out.old ++ rule_at_text broken.now) }
{
    push_pos(out, broken.pos)?;
    out.push(b' ')?;
    put_fault(out, &broken.fault)
}
