// The section headers and the sections' names.
ghost use Rattle.std.specs.Prelude.{◌≡◌, ◌++◌, OnOk};
ghost use Rattle.tm_elf_write.specs.Fields.{bytes_of};
ghost use Rattle.tm_elf_write.specs.Sections.{section as section_row, section_fields, section_names, sections};
ghost use Rattle.tm_elf_write.specs.Sections.{sections_bytes};

use crate::fields::{Field, put_fields};
use crate::places::{NAMES_LEN, PAGE, Places, TEXT_AT, WORK_ADDRESS, WORK_LEN};
use tm_base::{Bytes, NoMemory};
use tm_plan_map::{TABLES_ADDRESS, TEXT_ADDRESS};

/// A range of the file, described.
#[derive(Clone, Copy, Debug, PartialEq, Eq)]
pub struct Section {
    pub name: u32,
    pub kind: u32,
    pub flags: u64,
    pub address: u64,
    pub offset: u64,
    pub size: u64,
    pub link: u32,
    pub info: u32,
    pub align: u64,
    pub entry: u64,
}

// A row of the table: behind the address stand offset and size, link and info, align and entry size.
fn row(
    name: u32,
    kind: u32,
    flags: u64,
    address: u64,
    range: (u64, u64),
    links: (u32, u32),
    shape: (u64, u64),
) -> Section
    ensures { result ≡ section_row name kind flags address range.0 range.1 links.0 links.1 shape.0 shape.1 }
{
    Section {
        name,
        kind,
        flags,
        address,
        offset: range.0,
        size: range.1,
        link: links.0,
        info: links.1,
        align: shape.0,
        entry: shape.1,
    }
}

#[tactic(auto, unfolding(crate::specs::Sections::section_fields))]
fn put_section(out: &mut Bytes, s: Section) -> Result<(), NoMemory>
    ensures { OnOk result (out.new ≡ out.old ++ bytes_of (section_fields s)) }
{
    put_fields(
        out,
        &[
            Field::Word(s.name),
            Field::Word(s.kind),
            Field::Long(s.flags),
            Field::Long(s.address),
            Field::Long(s.offset),
            Field::Long(s.size),
            Field::Word(s.link),
            Field::Word(s.info),
            Field::Long(s.align),
            Field::Long(s.entry),
        ],
    )
}

fn put_rows(out: &mut Bytes, rows: &[Section]) -> Result<(), NoMemory>
    ensures { OnOk result (out.new ≡ out.old ++ sections_bytes rows.now) }
{
    for row in rows {
        put_section(out, *row)?;
    }
    Ok(())
}

/// Appends the eight section headers, of parts of these lengths in bytes.
#[tactic(auto, unfolding(crate::specs::Sections::sections))]
pub fn put_sections(
    out: &mut Bytes,
    text: u64,
    tables: u64,
    plan: u64,
    symbols: u64,
    strings: u64,
    at: Places,
) -> Result<(), NoMemory>
    ensures { OnOk result (out.new ≡ out.old ++ sections_bytes (sections text tables plan symbols strings at)) }
{
    let rows = [
        row(0, 0, 0, 0, (0, 0), (0, 0), (0, 0)),
        row(1, 1, 6, TEXT_ADDRESS, (TEXT_AT, text), (0, 0), (PAGE, 0)),
        row(
            7,
            1,
            2,
            TABLES_ADDRESS,
            (at.tables, tables),
            (0, 0),
            (PAGE, 0),
        ),
        row(15, 8, 3, WORK_ADDRESS, (0, WORK_LEN), (0, 0), (PAGE, 0)),
        row(21, 1, 0, 0, (at.plan, plan), (0, 0), (8, 0)),
        row(29, 2, 0, 0, (at.symbols, symbols), (6, 1), (8, 24)),
        row(37, 3, 0, 0, (at.strings, strings), (0, 0), (1, 0)),
        row(45, 3, 0, 0, (at.names, NAMES_LEN), (0, 0), (1, 0)),
    ];
    put_rows(out, &rows)
}

/// Appends the names to which the section headers point.
#[tactic(auto, unfolding(crate::specs::Sections::section_names))]
pub fn put_names(out: &mut Bytes) -> Result<(), NoMemory>
    ensures { OnOk result (out.new ≡ out.old ++ section_names) }
{
    out.append(b"\0.text\0.tables\0.work\0.tmplan\0.symtab\0.strtab\0.shstrtab\0")
}
