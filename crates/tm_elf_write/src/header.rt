// The file header.
ghost use Rattle.std.specs.Prelude.{◌≡◌, ◌++◌, OnOk};
ghost use Rattle.tm_elf_write.specs.Fields.{bytes_of};
ghost use Rattle.tm_elf_write.specs.Header.{header};

use crate::fields::{Field, put_fields};
use tm_base::{Bytes, NoMemory};
use tm_plan_map::TEXT_ADDRESS;

/// Appends the header of a file whose section headers stand at this offset.
#[tactic(auto, unfolding(crate::specs::Header::header))]
pub fn put_header(out: &mut Bytes, sections: u64) -> Result<(), NoMemory>
    ensures { OnOk result (out.new ≡ out.old ++ bytes_of (header sections)) }
{
    put_fields(
        out,
        &[
            Field::Byte(0x7f),
            Field::Byte(b'E'),
            Field::Byte(b'L'),
            Field::Byte(b'F'),
            Field::Byte(2), // e_ident: ELFCLASS64
            Field::Byte(1), // ELFDATA2LSB
            Field::Byte(1), // EV_CURRENT
            Field::Byte(0), // no ABI, and padding
            Field::Long(0),
            Field::Half(2), // e_type: ET_EXEC
            Field::Half(243), // e_machine: EM_RISCV
            Field::Word(1), // e_version
            Field::Long(TEXT_ADDRESS), // e_entry
            Field::Long(64), // e_phoff
            Field::Long(sections), // e_shoff
            Field::Word(0), // e_flags
            Field::Half(64), // e_ehsize
            Field::Half(56), // e_phentsize
            Field::Half(3), // e_phnum
            Field::Half(64), // e_shentsize
            Field::Half(8), // e_shnum
            Field::Half(7), // e_shstrndx
        ],
    )
}
