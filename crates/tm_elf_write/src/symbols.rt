// The symbol table and the strings with the symbols' names.
ghost use Rattle.std.specs.Prelude.{◌≡◌, ◌++◌, ◌+◌, ◌*◌, ◌≤◌, OnOk, IfOk, All, length};
ghost use Rattle.tm_elf_write.specs.Fields.{bytes_of};
ghost use Rattle.tm_elf_write.specs.Symbols.{IsName, string_bytes, symbol_bytes, entry};
ghost use Rattle.tm_elf_write.specs.declared.parts.TheConstants.{MOST_SYMBOLS};

use crate::fields::{Field, put_fields, put_zeros};
use crate::parts::Symbol;
use std::alloc::Global;
use tm_base::{Bytes, NoMemory};

/// The names, each ended by a zero byte.
#[tactic(auto, unfolding(crate::specs::Symbols::string_bytes))]
pub fn strings_of(alloc: Global, symbols: &[Symbol]) -> Result<Bytes, NoMemory>
    requires { All (λ s. IsName s.name) symbols.now }
    ensures bytes { IfOk result (λ b. b ≡ string_bytes symbols.now) }
    ensures short { IfOk result (λ b. length b ≤ 33 * length symbols.now + 1) }
{
    let mut out = Bytes::new(alloc);
    out.push(0)?;
    for s in symbols {
        out.append(s.name.as_slice())?;
        out.push(0)?;
    }
    Ok(out)
}

#[tactic(auto, unfolding(crate::specs::Symbols::entry))]
fn put_entry(out: &mut Bytes, name: u32, addr: u64) -> Result<(), NoMemory>
    ensures { OnOk result (out.new ≡ out.old ++ bytes_of (entry name addr)) }
{
    put_fields(
        out,
        &[
            Field::Word(name),
            Field::Byte(0x10),
            Field::Byte(0),
            Field::Half(1),
            Field::Long(addr),
            Field::Long(0),
        ],
    )
}

/// The symbol table: an entry of zeros, and one for each symbol.
#[tactic(auto, unfolding(crate::specs::Symbols::symbol_bytes, crate::specs::Symbols::entries))]
pub fn symbols_of(alloc: Global, symbols: &[Symbol]) -> Result<Bytes, NoMemory>
    requires names { All (λ s. IsName s.name) symbols.now }
    requires few { length symbols.now ≤ MOST_SYMBOLS }
    ensures { IfOk result (λ b. b ≡ symbol_bytes symbols.now) }
{
    let mut out = Bytes::new(alloc);
    put_zeros(&mut out, 24)?;
    let mut name = 1u32;
    for s in symbols {
        put_entry(&mut out, name, s.addr)?;
        name += s.name.as_slice().len() as u32 + 1;
    }
    Ok(out)
}
