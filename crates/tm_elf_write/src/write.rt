// Writes the file.
ghost use Rattle.std.specs.Prelude.{◌≡◌, ◌^◌, ◌<◌, IfOk, length};
ghost use Rattle.tm_elf_write.specs.Elf.{IsWritable, elf_file, file};
ghost use Rattle.tm_elf_write.specs.Stands.{ReadsAs};

use crate::fields::{put_words, put_zeros};
use crate::header::put_header;
use crate::parts::Parts;
use crate::places::{NAMES_LEN, TEXT_AT, places_of};
use crate::plan::plan_of;
use crate::sections::{put_names, put_sections};
use crate::segments::put_segments;
use crate::symbols::{strings_of, symbols_of};
use std::alloc::Global;
use tm_base::{Bytes, NoMemory};

// Where the file header and the three program headers end.
const HEADERS_END: u64 = 64 + 3 * 56;

// The parts in their order, each at its place.
#[tactic(auto, unfolding(crate::specs::Elf::file))]
fn file_of(
    alloc: Global,
    text: &[u8],
    tables: &[u8],
    plan: &[u8],
    symbols: &[u8],
    strings: &[u8],
) -> Result<Bytes, NoMemory>
    requires text { length text.now < 2 ^ 40 }
    requires tables { length tables.now < 2 ^ 40 }
    requires plan { length plan.now < 2 ^ 40 }
    requires symbols { length symbols.now < 2 ^ 40 }
    requires strings { length strings.now < 2 ^ 40 }
    ensures { IfOk result (λ b. b ≡ file text.now tables.now plan.now symbols.now strings.now) }
{
    let text_len = text.len() as u64;
    let tables_len = tables.len() as u64;
    let plan_len = plan.len() as u64;
    let symbols_len = symbols.len() as u64;
    let strings_len = strings.len() as u64;
    let at = places_of(text_len, tables_len, plan_len, symbols_len, strings_len);
    let mut out = Bytes::new(alloc);
    put_header(&mut out, at.sections)?;
    put_segments(&mut out, text_len, tables_len, at)?;
    put_zeros(&mut out, TEXT_AT - HEADERS_END)?;
    out.append(text)?;
    put_zeros(&mut out, at.tables - (TEXT_AT + text_len))?;
    out.append(tables)?;
    put_zeros(&mut out, at.plan - (at.tables + tables_len))?;
    out.append(plan)?;
    put_zeros(&mut out, at.symbols - (at.plan + plan_len))?;
    out.append(symbols)?;
    out.append(strings)?;
    put_names(&mut out)?;
    put_zeros(&mut out, at.sections - (at.names + NAMES_LEN))?;
    put_sections(
        &mut out,
        text_len,
        tables_len,
        plan_len,
        symbols_len,
        strings_len,
        at,
    )?;
    Ok(out)
}

/// The bytes of an image's file: an executable of ELF gABI and RISC-V psABI with three segments, and with sections
/// for the plan and the symbols.
/// The only error is want of memory.
#[tactic(auto, using(crate::proofs::Lengths::length_text, crate::proofs::Lengths::length_symbols, crate::proofs::Standing::reads_as))]
pub fn write_elf(alloc: Global, parts: &Parts) -> Result<Bytes, NoMemory>
    requires { IsWritable parts.now }
    ensures file { IfOk result (λ bytes. bytes ≡ elf_file parts.now) }
    ensures reads { IfOk result (λ bytes. ReadsAs parts.now bytes) }
{
    let mut text = Bytes::new(alloc);
    put_words(&mut text, parts.text.as_slice())?;
    let plan = plan_of(alloc, &parts.plan)?;
    let symbols = symbols_of(alloc, parts.symbols.as_slice())?;
    let strings = strings_of(alloc, parts.symbols.as_slice())?;
    file_of(
        alloc,
        text.as_slice(),
        parts.tables.as_slice(),
        plan.as_slice(),
        symbols.as_slice(),
        strings.as_slice(),
    )
}
