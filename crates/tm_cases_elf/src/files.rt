// Files of images.
use std::alloc::Global;
use tm_base::{Bytes, NoMemory};
use tm_cases_book::{State, changed, put, put_text};
use tm_elf::read_elf;
use tm_elf_write::Parts;

/// The parts of a changed file, or its fault.
pub fn elf(state: &State, rest: &str, out: &mut Bytes) -> Result<(), NoMemory> {
    let alloc = state.alloc;
    let (name, changes) = rest.split_once(' ').unwrap_or((rest, ""));
    let file = changed(alloc, state.texts.find(name), changes)?;
    match read_elf(alloc, file.as_slice()) {
        Ok(parts) => put_parts(alloc, &parts, out),
        Err(fault) => put(out, format!(in alloc; "{fault:?}")),
    }
}

fn put_parts(alloc: Global, parts: &Parts, out: &mut Bytes) -> Result<(), NoMemory> {
    let words = parts.text.as_slice().len();
    let tables = parts.tables.as_slice().len();
    let seed = parts.plan.seed;
    put(
        out,
        format!(in alloc; "words {words}, tables {tables}, seed {seed:#x}, topology "),
    )?;
    put_text(out, parts.plan.topo.as_slice())?;
    out.append(b", template ")?;
    put_text(out, parts.plan.template.as_slice())?;
    for symbol in parts.symbols.as_slice() {
        out.append(b", ")?;
        put_text(out, symbol.name.as_slice())?;
        let addr = symbol.addr;
        put(out, format!(in alloc; " {addr:#x}"))?;
    }
    Ok(())
}
