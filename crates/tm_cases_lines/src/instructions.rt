// Lines, words and steps of single instructions.
ghost use Rattle.std.specs.Prelude.{IfSome};
ghost use Rattle.tm_table.specs.Row.{IsGiven, IsWidth};
ghost use Rattle.tm_table.specs.Words.{Fits};

use std::alloc::Global;
use tm_asm_line::{parse_line, print_line};
use tm_base::{Bytes, NoMemory, push_decimal};
use tm_cases_book::{State, number, put, small};
use tm_table::{Access, Cpu, Instr, decode, encode, exec as step, fits, needs_read};

/// A line: its word, what that is decoded to and printed as, and the fields.
pub fn line(state: &State, rest: &str, out: &mut Bytes) -> Result<(), NoMemory> {
    let text = state.texts.read(rest)?;
    match parse_line(text.as_slice()) {
        Ok(i) => put_line(state.alloc, i, out),
        Err(fault) => put(out, format!(in state.alloc; "{fault:?}")),
    }
}

fn put_line(alloc: Global, i: Instr, out: &mut Bytes) -> Result<(), NoMemory> {
    if !fits(i) {
        return out.append(b"doesn't fit");
    }
    let code = encode(i);
    put(out, format!(in alloc; "{code:#010x} "))?;
    put_word(code, out)?;
    put_fields(i, out)
}

fn put_fields(i: Instr, out: &mut Bytes) -> Result<(), NoMemory> {
    for (name, value) in [(b" rd ", i.rd), (b"rs1 ", i.rs1), (b"rs2 ", i.rs2)] {
        out.append(name)?;
        push_decimal(out, u64::from(value))?;
        out.push(b' ')?;
    }
    out.append(b"imm ")?;
    if i.imm < 0 {
        out.push(b'-')?;
    }
    push_decimal(out, i.imm.unsigned_abs())
}

/// A word: what it is decoded to, as it is printed.
pub fn word(rest: &str, out: &mut Bytes) -> Result<(), NoMemory> {
    put_word(small(rest), out)
}

fn put_word(code: u32, out: &mut Bytes) -> Result<(), NoMemory> {
    match decode(code) {
        Some(i) => print_line(out, i),
        None => out.append(b"none"),
    }
}

/// What stands before a step: the program counter, the registers, and the bytes that a load finds.
#[derive(Drop)]
struct Before {
    pc: u64,
    x: [u64; 32],
    read: u64,
}

fn register(name: &str) -> usize {
    small(name.get(1..).unwrap_or("")) as usize
}

fn read_before(rest: &str) -> Before {
    let mut all = Before {
        pc: 0x8000_0100,
        x: [0; 32],
        read: 0,
    };
    for word in rest.split(' ') {
        let (name, value) = word.split_once('=').unwrap_or(("x0", ""));
        let value = number(value);
        match name {
            "pc" => all.pc = value,
            "read" => all.read = value,
            _ => {
                let at = register(name);
                if at < 32 {
                    all.x[at] = value;
                }
            }
        }
    }
    all
}

/// The bytes of a load of this width.
fn given(read: Option<(u64, u8)>, value: u64) -> Option<u64>
    requires { IfSome read (λ p. IsWidth p.1) }
    ensures { IsGiven read result }
{
    match read {
        None => None,
        Some((_, 1)) => Some(value % 256),
        Some((_, 2)) => Some(value % 65_536),
        Some((_, 4)) => Some(value % 4_294_967_296),
        Some(_) => Some(value),
    }
}

/// A step of a word: the access, the program counter behind it, and the registers that it changes.
pub fn exec(alloc: Global, rest: &str, out: &mut Bytes) -> Result<(), NoMemory> {
    let (code, settings) = rest.split_once(' ').unwrap_or((rest, ""));
    match decode(small(code)) {
        Some(i) => put_step(alloc, i, read_before(settings), out),
        None => out.append(b"none"),
    }
}

fn put_step(alloc: Global, i: Instr, at: Before, out: &mut Bytes) -> Result<(), NoMemory>
    requires { Fits i }
{
    let mut x = at.x;
    x[0] = 0;
    let mut cpu = Cpu::new(at.pc, x);
    let old = cpu.x;
    let asked = needs_read(&cpu, i);
    let access = step(&mut cpu, i, given(asked, at.read));
    let pc = cpu.pc;
    put(out, format!(in alloc; "pc {pc:#x}"))?;
    for (register, (was, is)) in old.iter().zip(cpu.x.iter()).enumerate() {
        if was != is {
            put(out, format!(in alloc; ", x{register} {is:#x}"))?;
        }
    }
    put_access(alloc, access, out)
}

fn put_access(alloc: Global, access: Access, out: &mut Bytes) -> Result<(), NoMemory> {
    match access {
        Access::Quiet => Ok(()),
        Access::Read { addr, width, value } => put(
            out,
            format!(in alloc; ", reads {width} at {addr:#x}: {value:#x}"),
        ),
        Access::Write { addr, width, value } => put(
            out,
            format!(in alloc; ", writes {width} at {addr:#x}: {value:#x}"),
        ),
    }
}
