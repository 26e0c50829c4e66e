// One instruction, printed.
ghost use Rattle.std.specs.Prelude.{◌≡◌, ◌+◌, ◌≤◌, ◌++◌, length, Ok, OnOk, OnErr};
ghost use Rattle.tm_table.specs.Words.{Fits as FitsInstr};
ghost use Rattle.tm_asm_line.specs.Reading.{line_of};
ghost use Rattle.tm_asm_line.specs.Printing.{printed, gap as own_gap, piece_text, operand_text, mark_text};
ghost use Rattle.tm_asm_line.specs.Printing.{register_in as own_register_in};

use crate::line::Line;
use crate::read::{set_after, set_before};
use crate::shape::{Operand, Piece, Side, Slot, name, pieces, set_text, shape_of};
use tm_base::{Bytes, NoMemory};
use tm_table::Instr;

/// Appends the printed form of an instruction, or changes nothing.
pub fn print_line(out: &mut Bytes, i: Instr) -> Result<(), NoMemory>
    requires { FitsInstr i }
    ensures ok { OnOk result (out.new ≡ out.old ++ printed i) }
    ensures err { OnErr result (out.new ≡ out.old) }
    ensures reads_back { line_of (printed i) ≡ Ok i }
{
    let mut line = Line::new();
    line.append(name(i.op));
    let pieces = pieces(shape_of(i.op));
    line.append(gap(pieces));
    for piece in pieces {
        print_piece(&mut line, *piece, i);
    }
    out.append(line.as_slice())
}

/// A blank before operands, if there are any.
fn gap(pieces: &[Piece]) -> &'static [u8]
    ensures gap { result.now ≡ own_gap pieces.now }
    ensures short { length result.now ≤ 1 }
{
    if pieces.is_empty() {
        return b"".as_slice();
    }
    b" ".as_slice()
}

fn print_piece(line: &mut Line, piece: Piece, i: Instr)
    requires { length line.old + length (piece_text piece i) ≤ 64 }
    ensures { line.new ≡ line.old ++ piece_text piece i }
{
    match piece {
        Piece::Take(operand) => print_operand(line, operand, i),
        Piece::Mark(mark) => print_mark(line, mark),
    }
}

/// A mark, with a blank behind a comma.
#[tactic(auto, unfolding(crate::specs::Printing::mark_text))]
fn print_mark(line: &mut Line, mark: u8)
    requires { length line.old + length (mark_text mark) ≤ 64 }
    ensures { line.new ≡ line.old ++ mark_text mark }
{
    line.push(mark);
    if mark == b',' {
        line.push(b' ');
    }
}

#[tactic(auto, unfolding(crate::specs::Printing::operand_text))]
fn print_operand(line: &mut Line, operand: Operand, i: Instr)
    requires { length line.old + length (operand_text operand i) ≤ 64 }
    ensures { line.new ≡ line.old ++ operand_text operand i }
{
    match operand {
        Operand::Register(slot) => {
            line.push(b'x');
            line.append_decimal(u64::from(register_in(slot, i)));
        }
        Operand::Number(_) => line.append_signed(i.imm),
        Operand::Set(Side::Before) => line.append(set_text(set_before(i.imm))),
        Operand::Set(Side::After) => line.append(set_text(set_after(i.imm))),
    }
}

fn register_in(slot: Slot, i: Instr) -> u8
    ensures { result ≡ own_register_in slot i }
{
    match slot {
        Slot::Rd => i.rd,
        Slot::Rs1 => i.rs1,
        Slot::Rs2 => i.rs2,
    }
}
