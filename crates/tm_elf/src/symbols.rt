// The symbols.
ghost use Rattle.std.specs.Prelude.{◌≡◌, ◌≢◌, ◌≤◌, ◌+◌, ◌-◌, ◌*◌, ◌/◌, ◌%◌, ◌<◌, length, Ok, Err, Some, None, IfOk};
ghost use Rattle.std.specs.Prelude.{IfErr, IsTrue};
ghost use Rattle.tm_elf_write.specs.declared.parts.TheConstants.{MOST_SYMBOLS};
ghost use Rattle.tm_elf_head.specs.PartFaults.{has_symbols as with_symbols};
ghost use Rattle.tm_elf.specs.SymbolTable.{symbol_at as symbol_of_entry, symbols_from, then_symbols};
ghost use Rattle.tm_elf.specs.Read.{symbols_in};

use crate::names::name_len;
use std::alloc::Global;
use tm_base::{Bytes, List, NoMemory};
use tm_elf_head::{long_at, part_at, section, word_at};
use tm_elf_write::{SYMBOL_NAME_BYTES, Symbol};
use tm_refusals::ElfFault;

/// The symbols of a file.
#[tactic(auto, using(tm_elf_head::proofs::FitLemmas::symbols_fit), unfolding(crate::specs::Read::symbols_in))]
pub fn read_symbols(alloc: Global, bytes: &[u8]) -> Result<List<Symbol>, ElfFault>
    requires long { 744 ≤ length bytes.now }
    requires symbols { IsTrue (with_symbols bytes.now) }
    ensures ok { IfOk result (λ symbols. symbols_in bytes.now ≡ Ok symbols) }
    ensures err { IfErr result (λ e. e ≢ ElfFault.NoMemory → symbols_in bytes.now ≡ Err e) }
{
    let table = section(bytes, 5).of(bytes);
    let strings = section(bytes, 6).of(bytes);
    read_entries(alloc, table, strings)
}

// The symbol of an entry.
#[tactic(auto, unfolding(crate::specs::SymbolTable::symbol_at))]
fn symbol_at(alloc: Global, table: &[u8], strings: &[u8], index: usize) -> Result<Symbol, ElfFault>
    requires few { length table.now ≤ 24 * (1 + MOST_SYMBOLS) }
    requires within { 24 * index + 24 ≤ length table.now }
    ensures ok { IfOk result (λ s. symbol_of_entry table.now strings.now index ≡ Some s) }
    ensures err { IfErr result (λ e. e ≢ ElfFault.NoMemory → (symbol_of_entry table.now strings.now index ≡ None)
        × (e ≡ ElfFault.BadSymbol index)) }
{
    let named = part_at(
        strings,
        word_at(table, 24 * index) as usize,
        SYMBOL_NAME_BYTES + 1,
    );
    match name_len(named) {
        Some(n) => {
            let mut name = Bytes::new(alloc);
            if name.append(part_at(named, 0, n)).is_err() {
                return Err(ElfFault::NoMemory);
            }
            Ok(Symbol {
                name,
                addr: long_at(table, 24 * index + 8),
            })
        }
        None => Err(ElfFault::BadSymbol {
            index: index as u64,
        }),
    }
}

// The symbols of the entries behind the first.
#[tactic(auto, using(crate::proofs::SymbolLemmas::prepend_start, crate::proofs::SymbolLemmas::prepend_more, crate::proofs::SymbolLemmas::prepend_stop, crate::proofs::SymbolLemmas::prepend_end))]
fn read_entries(alloc: Global, table: &[u8], strings: &[u8]) -> Result<List<Symbol>, ElfFault>
    requires few { length table.now ≤ 24 * (1 + MOST_SYMBOLS) }
    ensures ok { IfOk result (λ symbols. symbols_from table.now strings.now (length table.now / 24 - 1) 1
        ≡ Ok symbols) }
    ensures err { IfErr result (λ e. e ≢ ElfFault.NoMemory
        → symbols_from table.now strings.now (length table.now / 24 - 1) 1 ≡ Err e) }
{
    let count = table.len() / 24;
    let mut symbols = List::new(alloc);
    for index in 1..count {
        let symbol = match symbol_at(alloc, table, strings, index) {
            Ok(symbol) => symbol,
            Err(e) => return Err(e),
        };
        if symbols.push(symbol).is_err() {
            return Err(ElfFault::NoMemory);
        }
    }
    Ok(symbols)
}
