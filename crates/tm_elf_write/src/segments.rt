// The program headers: what a loader puts where.
ghost use Rattle.std.specs.Prelude.{◌≡◌, ◌++◌, OnOk};
ghost use Rattle.tm_elf_write.specs.Fields.{bytes_of};
ghost use Rattle.tm_elf_write.specs.Segments.{segment_fields, segments, segments_bytes};

use crate::fields::{Field, put_fields};
use crate::places::{PAGE, Places, TEXT_AT, WORK_ADDRESS, WORK_LEN};
use tm_base::{Bytes, NoMemory};
use tm_plan_map::{TABLES_ADDRESS, TEXT_ADDRESS};

/// A part of memory, loaded from an offset of the file.
#[derive(Clone, Copy, Debug, PartialEq, Eq)]
pub struct Segment {
    pub flags: u32,
    pub offset: u64,
    pub address: u64,
    pub filesz: u64,
    pub memsz: u64,
}

#[tactic(auto, unfolding(crate::specs::Segments::segment_fields))]
fn put_segment(out: &mut Bytes, s: Segment) -> Result<(), NoMemory>
    ensures { OnOk result (out.new ≡ out.old ++ bytes_of (segment_fields s)) }
{
    put_fields(
        out,
        &[
            Field::Word(1),
            Field::Word(s.flags),
            Field::Long(s.offset),
            Field::Long(s.address),
            Field::Long(s.address),
            Field::Long(s.filesz),
            Field::Long(s.memsz),
            Field::Long(PAGE),
        ],
    )
}

fn put_rows(out: &mut Bytes, rows: &[Segment]) -> Result<(), NoMemory>
    ensures { OnOk result (out.new ≡ out.old ++ segments_bytes rows.now) }
{
    for row in rows {
        put_segment(out, *row)?;
    }
    Ok(())
}

/// Appends the three program headers, of text and tables of these lengths in bytes.
#[tactic(auto, unfolding(crate::specs::Segments::segments))]
pub fn put_segments(out: &mut Bytes, text: u64, tables: u64, at: Places) -> Result<(), NoMemory>
    ensures { OnOk result (out.new ≡ out.old ++ segments_bytes (segments text tables at)) }
{
    let rows = [
        Segment {
            flags: 5,
            offset: TEXT_AT,
            address: TEXT_ADDRESS,
            filesz: text,
            memsz: text,
        },
        Segment {
            flags: 4,
            offset: at.tables,
            address: TABLES_ADDRESS,
            filesz: tables,
            memsz: tables,
        },
        Segment {
            flags: 6,
            offset: 0,
            address: WORK_ADDRESS,
            filesz: 0,
            memsz: WORK_LEN,
        },
    ];
    put_rows(out, &rows)
}
