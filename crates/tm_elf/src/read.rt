// Reads the file.
ghost use Rattle.std.specs.Prelude.{◌≡◌, ◌≢◌, ◌≤◌, ◌+◌, ◌*◌, ◌/◌, length, Ok, Err, None, IfOk, IfErr, MatchResult};
ghost use Rattle.std.specs.Prelude.{IsTrue};
ghost use Rattle.tm_elf_write.specs.Elf.{IsWritable, elf_file};
ghost use Rattle.tm_elf_write.specs.declared.parts.Parts.{Parts};
ghost use Rattle.tm_elf.specs.Read.{InRange, compared, elf_of, parts_in, symbols_in, words_from};
ghost use Rattle.tm_elf_head.specs.HeaderFaults.{header_fault as head_fault};
ghost use Rattle.tm_elf_head.specs.PartFaults.{bad_segment as segment_at_fault, has_plan as with_plan};
ghost use Rattle.tm_elf_head.specs.PartFaults.{has_symbols as with_symbols};

use crate::symbols::read_symbols;
use std::alloc::Global;
use tm_base::{Bytes, List, NoMemory, Words};
use tm_elf_head::{
    bad_segment, first_difference, has_plan, has_symbols, header_fault, read_plan, section,
    segment, word_at,
};
use tm_elf_write::{Parts, Symbol, write_elf};
use tm_refusals::ElfFault;

// The words that bytes hold.
#[tactic(auto, using(crate::proofs::WordLemmas::words_start, crate::proofs::WordLemmas::words_more, crate::proofs::WordLemmas::words_end))]
fn read_words(alloc: Global, bytes: &[u8]) -> Result<Words, NoMemory>
    ensures { IfOk result (λ words. words ≡ words_from bytes.now (length bytes.now / 4) 0) }
{
    let mut words = Words::new(alloc);
    for index in 0..bytes.len() / 4 {
        words.push(word_at(bytes, 4 * index))?;
    }
    Ok(words)
}

// The parts to which the headers point, with these symbols.
#[tactic(auto, using(tm_elf_head::proofs::FitLemmas::text_fits, tm_elf_head::proofs::FitLemmas::plan_fits), unfolding(crate::specs::Read::parts_in))]
fn parts_of(alloc: Global, bytes: &[u8], symbols: List<Symbol>) -> Result<Parts, NoMemory>
    requires long { 744 ≤ length bytes.now }
    requires segments { segment_at_fault bytes.now ≡ None }
    requires plan { IsTrue (with_plan bytes.now) }
    ensures { IfOk result (λ parts. parts ≡ parts_in bytes.now symbols) }
{
    let text = read_words(alloc, segment(bytes, 0).of(bytes))?;
    let mut tables = Bytes::new(alloc);
    tables.append(segment(bytes, 1).of(bytes))?;
    let plan = read_plan(alloc, section(bytes, 4).of(bytes))?;
    Ok(Parts {
        text,
        tables,
        plan,
        symbols,
    })
}

// The parts, if their file is these bytes.
#[tactic(auto, using(tm_elf_head::proofs::DifferenceLemmas::same_lists), unfolding(crate::specs::Read::compared))]
fn compare(alloc: Global, parts: Parts, bytes: &[u8]) -> Result<Parts, ElfFault>
    requires { IsWritable parts }
    ensures ok { IfOk result (λ p. compared parts bytes.now ≡ Ok p) }
    ensures err { IfErr result (λ e. e ≢ ElfFault.NoMemory → compared parts bytes.now ≡ Err e) }
    ensures file { IfOk result (λ p. elf_file p ≡ bytes.now) }
    ensures writable { IfOk result (λ p. IsWritable p) }
{
    let file = match write_elf(alloc, &parts) {
        Ok(file) => file,
        Err(_) => return Err(ElfFault::NoMemory),
    };
    match first_difference(file.as_slice(), bytes) {
        Some(offset) => Err(ElfFault::Differs { offset }),
        None => Ok(parts),
    }
}

// What the file is read as.
#[tactic(auto, using(crate::proofs::NamedLemmas::writable), unfolding(crate::specs::Read::elf_of, crate::specs::Read::with_symbols))]
fn read(alloc: Global, bytes: &[u8]) -> Result<Parts, ElfFault>
    ensures ok { IfOk result (λ parts. elf_of bytes.now ≡ Ok parts) }
    ensures err { IfErr result (λ e. e ≢ ElfFault.NoMemory → elf_of bytes.now ≡ Err e) }
    ensures file { IfOk result (λ parts. elf_file parts ≡ bytes.now) }
    ensures writable { IfOk result (λ parts. IsWritable parts) }
{
    if let Some(fault) = header_fault(bytes) {
        return Err(fault);
    }
    if let Some(index) = bad_segment(bytes) {
        return Err(ElfFault::BadSegment { index });
    }
    if !has_plan(bytes) {
        return Err(ElfFault::NoPlan);
    }
    if !has_symbols(bytes) {
        return Err(ElfFault::BadSymbol { index: 0 });
    }
    let symbols = match read_symbols(alloc, bytes) {
        Ok(symbols) => symbols,
        Err(e) => return Err(e),
    };
    let parts = match parts_of(alloc, bytes, symbols) {
        Ok(parts) => parts,
        Err(_) => return Err(ElfFault::NoMemory),
    };
    compare(alloc, parts, bytes)
}

/// The parts of a file, or its first fault in the order of `ElfFault`. The parts are those whose file the bytes are.
pub fn read_elf(alloc: Global, bytes: &[u8]) -> Result<Parts, ElfFault>
    ensures ok { IfOk result (λ parts. elf_of bytes.now ≡ Ok parts) }
    ensures err { IfErr result (λ e. e ≢ ElfFault.NoMemory → elf_of bytes.now ≡ Err e) }
    ensures file { IfOk result (λ parts. elf_file parts ≡ bytes.now) }
    ensures writable { IfOk result (λ parts. IsWritable parts) }
    ensures only { (parts : Parts) → IsWritable parts → InRange parts → elf_file parts ≡ bytes.now
        → MatchResult result (λ read. read ≡ parts) (λ e. e ≡ ElfFault.NoMemory) }
{
    read(alloc, bytes)
}
