// Numbers in fields, the lowest byte first.
ghost use Rattle.std.specs.Prelude.{◌≡◌, ◌++◌, OnOk, map};
ghost use Rattle.tm_elf_write.specs.Fields.{field_bytes, bytes_of, zeros};
ghost use Rattle.tm_elf_write.specs.Elf.{text_bytes};

use tm_base::{Bytes, NoMemory};

/// A number in 1, 2, 4 or 8 bytes.
#[derive(Clone, Copy, Debug, PartialEq, Eq)]
pub enum Field {
    Byte(u8),
    Half(u16),
    Word(u32),
    Long(u64),
}

#[tactic(auto, unfolding(crate::specs::Fields::field_bytes))]
fn put_field(out: &mut Bytes, field: Field) -> Result<(), NoMemory>
    ensures { OnOk result (out.new ≡ out.old ++ field_bytes field) }
{
    match field {
        Field::Byte(n) => out.push(n),
        Field::Half(n) => out.append(&n.to_le_bytes()),
        Field::Word(n) => out.append(&n.to_le_bytes()),
        Field::Long(n) => out.append(&n.to_le_bytes()),
    }
}

/// Appends fields, one after the other.
pub fn put_fields(out: &mut Bytes, fields: &[Field]) -> Result<(), NoMemory>
    ensures { OnOk result (out.new ≡ out.old ++ bytes_of fields.now) }
{
    for field in fields {
        put_field(out, *field)?;
    }
    Ok(())
}

/// Appends the words of a text.
#[tactic(auto, unfolding(crate::specs::Elf::text_bytes))]
pub fn put_words(out: &mut Bytes, words: &[u32]) -> Result<(), NoMemory>
    ensures { OnOk result (out.new ≡ out.old ++ text_bytes words.now) }
{
    for word in words {
        put_field(out, Field::Word(*word))?;
    }
    Ok(())
}

/// Appends zero bytes.
pub fn put_zeros(out: &mut Bytes, count: u64) -> Result<(), NoMemory>
    ensures { OnOk result (out.new ≡ out.old ++ zeros count) }
{
    for _ in 0..count {
        out.push(0)?;
    }
    Ok(())
}
