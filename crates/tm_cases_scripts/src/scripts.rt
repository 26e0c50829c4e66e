// Scripts of faults over the cases of a test.
use crate::drawn::{LONGEST, drawn};
use crate::refused::put_script;
use std::alloc::Global;
use tm_base::{Bytes, NoMemory, push_decimal};
use tm_cases_book::{State, put};
use tm_fault::parse_faults;
use tm_plan_script::{Action, FaultLine};

/// The lines of a script over the cases of a test, or its fault: `TOPOLOGY TEMPLATE SEED TEXT`.
pub fn script(state: &State, rest: &str, out: &mut Bytes) -> Result<(), NoMemory> {
    let Some(cases) = drawn(state, rest) else {
        return out.append(b"no test");
    };
    let text = state.texts.read(behind_names(rest))?;
    if text.as_slice().len() > LONGEST {
        return out.append(b"too long");
    }
    match parse_faults(state.alloc, text.as_slice(), &cases) {
        Ok(faults) => {
            for line in faults.as_slice() {
                put_line(state.alloc, *line, out)?;
            }
            out.append(b"end")
        }
        Err(fault) => put_script(state.alloc, fault, out),
    }
}

// What stands behind the names of two texts and a seed.
fn behind_names(rest: &str) -> &str {
    behind_word(behind_word(behind_word(rest)))
}

fn behind_word(rest: &str) -> &str {
    match rest.split_once(' ') {
        Some((_, behind)) => behind,
        None => "",
    }
}

fn put_line(alloc: Global, line: FaultLine, out: &mut Bytes) -> Result<(), NoMemory> {
    put_named(out, b"hart ", line.hart)?;
    put_named(out, b" case ", line.case)?;
    match line.pass {
        Some(pass) => put_named(out, b" pass ", pass)?,
        None => out.append(b" pass *")?,
    }
    put_named(out, b" slot ", line.slot)?;
    put_action(alloc, line.action, out)?;
    out.append(b", ")
}

fn put_named(out: &mut Bytes, name: &[u8], number: u32) -> Result<(), NoMemory> {
    out.append(name)?;
    push_decimal(out, u64::from(number))
}

fn put_action(alloc: Global, action: Action, out: &mut Bytes) -> Result<(), NoMemory> {
    match action {
        Action::Result(xor) => put(out, format!(in alloc; " result {xor:#x}")),
        Action::Loaded(xor) => put(out, format!(in alloc; " loaded {xor:#x}")),
        Action::Stored(xor) => put(out, format!(in alloc; " stored {xor:#x}")),
        Action::Drop => out.append(b" drop"),
        Action::Turn => out.append(b" turn"),
    }
}
