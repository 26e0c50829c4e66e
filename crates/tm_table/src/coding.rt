ghost use Rattle.std.specs.Prelude.{◌≡◌, ◌≢◌, ◌↔◌, ◌+◌, ◌<◌, ◌^◌, find, IfSome, IsNone, IsTrue, Some};
ghost use Rattle.tm_table.specs.declared.instr.Instr.{Instr as TheInstr};
ghost use Rattle.tm_table.specs.declared.table.Layout.TheVariants.{R, I, S, B, U, J};
ghost use Rattle.tm_table.specs.Table.{row_of as own_row_of, table};
ghost use Rattle.tm_table.specs.Words.{split as parts_of_word, join as joined, decoded, word_of, Fits, FitsAs};
ghost use Rattle.tm_table.specs.Words.{InRange, From, imm_s, imm_b, imm_u, imm_j, read_as as instr_of};
ghost use Rattle.tm_table.specs.Words.{parts_as as parts_by, is_of as row_is_of, signed as signed_number};

use crate::instr::{Instr, Op};
use crate::table::{Fields, Layout, ROWS, Row};

/// Whether all fields are in the ranges of the op's row: registers below 32, the immediate as wide as the
/// layout has it, branch and jump offsets even, and 0 in each field that the op doesn't have.
#[tactic(auto, unfolding(crate::specs::Words::Fits))]
pub fn fits(i: Instr) -> bool
    ensures { IsTrue result ↔ Fits i }
{
    fits_as(row_of(i.op).layout, i)
}

/// The instruction that has the word, or none where no row of the table has it (RV64I 2.1).
pub fn decode(word: u32) -> Option<Instr>
    ensures value { result ≡ decoded (parts_of_word word) }
    ensures some { IfSome result (λ i. Fits i × (word_of i ≡ word)) }
    ensures none { IsNone result → (i : TheInstr) → Fits i → word_of i ≢ word }
{
    let f = split(word);
    match find_row(f) {
        Some(row) => Some(read_as(row.layout, row.op, f)),
        None => None,
    }
}

/// The word of an instruction (RV64I 2.1).
pub fn encode(i: Instr) -> u32
    requires { Fits i }
    ensures value { result ≡ word_of i }
    ensures back { decoded (parts_of_word (word_of i)) ≡ Some i }
    ensures range { word_of i < 2 ^ 32 }
{
    join(parts_as(row_of(i.op), i))
}

/// The row of the op.
fn row_of(op: Op) -> Row
    ensures { result ≡ own_row_of op }
{
    ROWS[op as usize]
}

/// The row that a word with these parts is of, or none where it is of no row.
fn find_row(f: Fields) -> Option<Row>
    ensures { result ≡ find (λ r. row_is_of f r) table }
{
    ROWS.iter().copied().find(|row| is_of(f, row))
}

/// The parts of a word.
fn split(word: u32) -> Fields
    ensures { result ≡ parts_of_word word }
{
    Fields {
        opcode: (word & 0x7f) as u8,
        rd: (word >> 7 & 0x1f) as u8,
        funct3: (word >> 12 & 7) as u8,
        rs1: (word >> 15 & 0x1f) as u8,
        rs2: (word >> 20 & 0x1f) as u8,
        bit25: (word >> 25 & 1) as u8,
        funct6: (word >> 26) as u8,
    }
}

/// The word with these parts.
fn join(f: Fields) -> u32
    requires { InRange f }
    ensures { result ≡ joined f }
{
    f.opcode as u32
        | (f.rd as u32) << 7
        | (f.funct3 as u32) << 12
        | (f.rs1 as u32) << 15
        | (f.rs2 as u32) << 20
        | (f.bit25 as u32) << 25
        | (f.funct6 as u32) << 26
}

/// Whether a word with these parts is of the row.
fn is_of(f: Fields, row: &Row) -> bool
    ensures { result ≡ row_is_of f row.now }
{
    let funct3 = f.funct3 == row.funct3;
    let funct6 = f.funct6 == row.funct6;
    f.opcode == row.opcode
        && match row.layout {
            Layout::R => funct3 && funct6 && f.bit25 == row.extra,
            Layout::Shift5 => funct3 && funct6 && f.bit25 == 0,
            Layout::I | Layout::S | Layout::B => funct3,
            Layout::U | Layout::J => true,
            Layout::Shift6 => funct3 && funct6,
            Layout::Order => funct3 && f.rd == 0 && f.rs1 == 0 && f.funct6 < 4,
            Layout::Whole => {
                funct3 && f.rd == 0 && f.rs1 == 0 && f.rs2 == row.extra && funct6 && f.bit25 == 0
            }
        }
}

/// The instruction whose word has these parts, as the layout reads them.
fn read_as(layout: Layout, op: Op, f: Fields) -> Instr
    requires { InRange f }
    ensures { result ≡ instr_of layout op f }
{
    let lower = f.rs2 as u32 + f.bit25 as u32 * 32;
    let all = lower + f.funct6 as u32 * 64;
    match layout {
        Layout::R => instr(op, f.rd, f.rs1, f.rs2, 0),
        Layout::I => instr(op, f.rd, f.rs1, 0, signed(11, all)),
        Layout::S => instr(op, 0, f.rs1, f.rs2, store_offset(f)),
        Layout::B => instr(op, 0, f.rs1, f.rs2, branch_offset(f)),
        Layout::U => instr(op, f.rd, 0, 0, upper(f)),
        Layout::J => instr(op, f.rd, 0, 0, jump_offset(f)),
        Layout::Shift6 => instr(op, f.rd, f.rs1, 0, lower as i64),
        Layout::Shift5 => instr(op, f.rd, f.rs1, 0, f.rs2 as i64),
        Layout::Order => instr(op, 0, 0, 0, all as i64),
        Layout::Whole => instr(op, 0, 0, 0, 0),
    }
}

fn instr(op: Op, rd: u8, rs1: u8, rs2: u8, imm: i64) -> Instr
    ensures op { result.op ≡ op }
    ensures rd { result.rd ≡ rd }
    ensures rs1 { result.rs1 ≡ rs1 }
    ensures rs2 { result.rs2 ≡ rs2 }
    ensures imm { result.imm ≡ imm }
{
    Instr {
        op,
        rd,
        rs1,
        rs2,
        imm,
    }
}

/// Bits 31..25, then 11..7, with their sign.
fn store_offset(f: Fields) -> i64
    requires { InRange f }
    ensures { result ≡ imm_s f }
{
    signed(11, f.rd as u32 + f.bit25 as u32 * 32 + f.funct6 as u32 * 64)
}

/// Bits 31, 7, 30..25 and 11..8, with their sign, then a bit 0.
fn branch_offset(f: Fields) -> i64
    requires { InRange f }
    ensures { result ≡ imm_b f }
{
    let rd = f.rd as u32;
    let funct6 = f.funct6 as u32;
    let lower = rd / 2 * 2 + f.bit25 as u32 * 32 + funct6 % 32 * 64;
    signed(12, lower + rd % 2 * 0x800 + funct6 / 32 * 0x1000)
}

/// Bits 31..12.
fn upper(f: Fields) -> i64
    requires { InRange f }
    ensures { result ≡ imm_u f }
{
    let lower = f.funct3 as u32 + f.rs1 as u32 * 8 + f.rs2 as u32 * 0x100;
    (lower + f.bit25 as u32 * 0x2000 + f.funct6 as u32 * 0x4000) as i64
}

/// Bits 31, 19..12, 20 and 30..21, with their sign, then a bit 0.
fn jump_offset(f: Fields) -> i64
    requires { InRange f }
    ensures { result ≡ imm_j f }
{
    let rs2 = f.rs2 as u32;
    let funct6 = f.funct6 as u32;
    let lower = rs2 / 2 * 2 + f.bit25 as u32 * 32 + funct6 % 32 * 64 + rs2 % 2 * 0x800;
    let middle = f.funct3 as u32 * 0x1000 + f.rs1 as u32 * 0x8000;
    signed(20, lower + middle + funct6 / 32 * 0x10_0000)
}

/// A number of 12, 13 or 21 bits, read with a sign.
fn signed(bits: u32, n: u32) -> i64
    requires range { bits < 22 }
    requires fits { n < 2 ^ (bits + 1) }
    ensures { result ≡ signed_number bits n }
{
    if n < 1 << bits {
        n as i64
    } else {
        n as i64 - (2 << bits)
    }
}

/// The parts of an instruction's word, as the row's layout has them.
fn parts_as(row: Row, i: Instr) -> Fields
    ensures { result ≡ parts_by row.layout row i }
{
    let n = i.imm.cast_unsigned();
    let plain = plain_parts(row, i);
    let bare = Fields {
        rd: 0,
        rs1: 0,
        ..plain
    };
    match row.layout {
        Layout::R => plain,
        Layout::I => long_parts(row, i),
        Layout::S => store_parts(row, i),
        Layout::B => branch_parts(row, i),
        Layout::U => upper_parts(row, i),
        Layout::J => jump_parts(row, i),
        Layout::Shift6 => Fields {
            rs2: (n % 32) as u8,
            bit25: (n / 32 % 2) as u8,
            ..plain
        },
        Layout::Shift5 => Fields {
            rs2: (n % 32) as u8,
            bit25: 0,
            ..plain
        },
        Layout::Order => Fields {
            rs2: (n % 32) as u8,
            bit25: (n / 32 % 2) as u8,
            funct6: (n / 64 % 4) as u8,
            ..bare
        },
        Layout::Whole => Fields {
            rs2: row.extra,
            bit25: 0,
            ..bare
        },
    }
}

/// The parts that the row and the registers give, without an immediate.
fn plain_parts(row: Row, i: Instr) -> Fields
    ensures { result ≡ parts_by R row i }
{
    Fields {
        opcode: row.opcode,
        rd: i.rd,
        funct3: row.funct3,
        rs1: i.rs1,
        rs2: i.rs2,
        bit25: row.extra,
        funct6: row.funct6,
    }
}

fn long_parts(row: Row, i: Instr) -> Fields
    ensures { result ≡ parts_by I row i }
{
    let n = i.imm.cast_unsigned();
    Fields {
        rs2: (n % 32) as u8,
        bit25: (n / 32 % 2) as u8,
        funct6: (n / 64 % 64) as u8,
        ..plain_parts(row, i)
    }
}

fn store_parts(row: Row, i: Instr) -> Fields
    ensures { result ≡ parts_by S row i }
{
    let n = i.imm.cast_unsigned();
    Fields {
        rd: (n % 32) as u8,
        bit25: (n / 32 % 2) as u8,
        funct6: (n / 64 % 64) as u8,
        ..plain_parts(row, i)
    }
}

fn branch_parts(row: Row, i: Instr) -> Fields
    ensures { result ≡ parts_by B row i }
{
    let n = i.imm.cast_unsigned();
    Fields {
        rd: (n / 2 % 16 * 2 + n / 0x800 % 2) as u8,
        bit25: (n / 32 % 2) as u8,
        funct6: (n / 64 % 32 + n / 0x1000 % 2 * 32) as u8,
        ..plain_parts(row, i)
    }
}

fn upper_parts(row: Row, i: Instr) -> Fields
    ensures { result ≡ parts_by U row i }
{
    let n = i.imm.cast_unsigned();
    Fields {
        funct3: (n % 8) as u8,
        rs1: (n / 8 % 32) as u8,
        rs2: (n / 0x100 % 32) as u8,
        bit25: (n / 0x2000 % 2) as u8,
        funct6: (n / 0x4000 % 64) as u8,
        ..plain_parts(row, i)
    }
}

fn jump_parts(row: Row, i: Instr) -> Fields
    ensures { result ≡ parts_by J row i }
{
    let n = i.imm.cast_unsigned();
    Fields {
        funct3: (n / 0x1000 % 8) as u8,
        rs1: (n / 0x8000 % 32) as u8,
        rs2: (n / 2 % 16 * 2 + n / 0x800 % 2) as u8,
        bit25: (n / 32 % 2) as u8,
        funct6: (n / 64 % 32 + n / 0x10_0000 % 2 * 32) as u8,
        ..plain_parts(row, i)
    }
}

/// Whether the fields are in the layout's ranges.
fn fits_as(layout: Layout, i: Instr) -> bool
    ensures { IsTrue result ↔ FitsAs layout i }
{
    let target = i.rd < 32;
    let sources = i.rs1 < 32 && i.rs2 < 32;
    let one = i.rs1 < 32 && i.rs2 == 0;
    let none = i.rs1 == 0 && i.rs2 == 0;
    let even = i.imm.cast_unsigned() % 2 == 0;
    match layout {
        Layout::R => target && sources && i.imm == 0,
        Layout::I => target && one && within(-2048, 2047, i.imm),
        Layout::S => i.rd == 0 && sources && within(-2048, 2047, i.imm),
        Layout::B => i.rd == 0 && sources && within(-4096, 4095, i.imm) && even,
        Layout::U => target && none && within(0, 1048575, i.imm),
        Layout::J => target && none && within(-1048576, 1048575, i.imm) && even,
        Layout::Shift6 => target && one && within(0, 63, i.imm),
        Layout::Shift5 => target && one && within(0, 31, i.imm),
        Layout::Order => i.rd == 0 && none && within(0, 255, i.imm),
        Layout::Whole => i.rd == 0 && none && i.imm == 0,
    }
}

/// Whether the number is from `first` to `last`, both included.
fn within(first: i64, last: i64, n: i64) -> bool
    ensures { IsTrue result ↔ From first last n }
{
    first <= n && n <= last
}
