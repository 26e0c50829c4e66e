/// Why bytes aren't the file of an image.
#[derive(Clone, Copy, Debug, PartialEq, Eq)]
pub enum ElfFault {
    /// Fewer than the 64 bytes of a file header.
    Short { have: u64 },
    /// The first seven bytes aren't those of an ELF-64 file of little-endian numbers.
    BadMagic,
    /// The file is for another machine.
    NotRiscv { machine: u16 },
    /// The file is no executable.
    NotExec { kind: u16 },
    /// The field of the file header at this offset is at fault.
    BadHeader { field: u8 },
    /// The program header of this number, 0 or 1, is at fault.
    BadSegment { index: u8 },
    /// There is no plan.
    NoPlan,
    /// The symbol table is at fault (0), or its entry of this number, up to 65,535.
    BadSymbol { index: u64 },
    /// The file of the parts that were read is another one: the first place at which the two differ, or the shorter
    /// length.
    Differs { offset: u64 },
    NoMemory,
}
