// One line of assembler text, read from left to right.
ghost use Rattle.std.specs.Prelude.{ℕ, ◌≡◌, ◌≢◌, ◌+◌, ◌<◌, ◌≤◌, ◌-◌, ◌^◌, ◌≤ℤ◌, pos, negsuc, IfOk, IfSome, SomeIff};
ghost use Rattle.std.specs.Prelude.{IsTrue, find, bytes_eq, length, not, slice_index};
ghost use Rattle.std.specs.Char.{digit_value};
ghost use Rattle.std.specs.List.{prefix_len, suffix_len};
ghost use Rattle.tm_table.specs.Table.{ops};
ghost use Rattle.tm_asm_line.specs.Shapes.{name_of, shape_of as own_shape_of, pieces_of};
ghost use Rattle.tm_asm_line.specs.Reading as reading;

use crate::fault::AsmFault;
use crate::shape::{
    OPS, Operand, Piece, Range, SETS, Side, Slot, name, pieces, set_text, shape_of,
};
use tm_base::read_number;
use tm_table::{Instr, Op};

/// Reads one line: the instruction that it is, or the first fault from left to right.
#[tactic(auto, unfolding(crate::specs::Reading::line_of))]
pub fn parse_line(text: &[u8]) -> Result<Instr, AsmFault>
    ensures { result ≡ reading.line_of text.now }
{
    let from = after_blanks(text, 0);
    let len = name_len(&text[from..]);
    match op_of(&text[from..from + len]) {
        Some(op) => read_operands(text, op, from + len),
        None => Err(AsmFault::UnknownName),
    }
}

fn name_len(bytes: &[u8]) -> usize
    ensures len { result ≡ prefix_len (λ b. not (reading.is_blank b)) bytes.now }
    ensures within { result ≤ length bytes.now }
{
    bytes.iter().take_while(|byte| !is_blank(**byte)).count()
}

/// The op of a name.
#[tactic(auto, unfolding(crate::specs::Reading::op_of))]
fn op_of(text: &[u8]) -> Option<Op>
    ensures { result ≡ reading.op_of text.now }
{
    OPS.iter().copied().find(|op| name(*op) == text)
}

/// Reads the operands of an op from a place of a line to its end.
fn read_operands(text: &[u8], op: Op, at: usize) -> Result<Instr, AsmFault>
    requires { at ≤ length text.now }
    ensures { result ≡ reading.pieces_reading text.now (pieces_of (own_shape_of op)) at (reading.bare op) }
{
    let mut instr = Instr {
        op,
        rd: 0,
        rs1: 0,
        rs2: 0,
        imm: 0,
    };
    let mut place = at;
    for piece in pieces(shape_of(op)) {
        (place, instr) = read_piece(text, *piece, after_blanks(text, place), instr)?;
    }
    let end = after_blanks(text, place);
    if end == text.len() {
        return Ok(instr);
    }
    Err(AsmFault::BadShape {
        place: wanted(text, end) as u64,
    })
}

/// The place after the blanks at a place.
#[tactic(auto, unfolding(crate::specs::Reading::after_blanks))]
fn after_blanks(text: &[u8], at: usize) -> usize
    requires { at ≤ length text.now }
    ensures place { result ≡ reading.after_blanks text.now at }
    ensures within { result ≤ length text.now }
{
    at + blanks_len(&text[at..])
}

fn blanks_len(bytes: &[u8]) -> usize
    ensures len { result ≡ prefix_len reading.is_blank bytes.now }
    ensures within { result ≤ length bytes.now }
{
    bytes.iter().take_while(|byte| is_blank(**byte)).count()
}

#[tactic(auto, unfolding(crate::specs::Reading::is_blank))]
fn is_blank(byte: u8) -> bool
    ensures { result ≡ reading.is_blank byte }
{
    if byte == b' ' {
        return true;
    }
    byte == b'\t'
}

#[tactic(auto, unfolding(crate::specs::Reading::is_delimiter))]
fn is_delimiter(byte: u8) -> bool
    ensures { result ≡ reading.is_delimiter byte }
{
    if is_blank(byte) {
        return true;
    }
    if byte == b',' {
        return true;
    }
    if byte == b'(' {
        return true;
    }
    byte == b')'
}

/// Where something that is missing was wanted.
#[tactic(auto, unfolding(crate::specs::Reading::wanted))]
fn wanted(text: &[u8], at: usize) -> usize
    ensures { result ≡ reading.wanted text.now at }
{
    if at < text.len() {
        return at;
    }
    text.len() - trailing_blanks(text)
}

fn trailing_blanks(text: &[u8]) -> usize
    ensures len { result ≡ suffix_len reading.is_blank text.now }
    ensures within { result ≤ length text.now }
{
    text.iter()
        .rev()
        .take_while(|byte| is_blank(**byte))
        .count()
}

/// Reads one piece at a place.
#[tactic(auto, unfolding(crate::specs::Reading::piece_reading))]
fn read_piece(
    text: &[u8],
    piece: Piece,
    at: usize,
    instr: Instr,
) -> Result<(usize, Instr), AsmFault>
    requires { at ≤ length text.now }
    ensures reading { result ≡ reading.piece_reading text.now piece at instr }
    ensures within { IfOk result (λ p. p.0 ≤ length text.now) }
{
    match piece {
        Piece::Take(operand) => take_operand(text, operand, at, instr),
        Piece::Mark(mark) => {
            if at < text.len() {
                if text[at] == mark {
                    return Ok((at + 1, instr));
                }
            }
            Err(AsmFault::BadShape {
                place: wanted(text, at) as u64,
            })
        }
    }
}

fn operand_len(bytes: &[u8]) -> usize
    ensures len { result ≡ prefix_len (λ b. not (reading.is_delimiter b)) bytes.now }
    ensures within { result ≤ length bytes.now }
{
    bytes
        .iter()
        .take_while(|byte| !is_delimiter(**byte))
        .count()
}

/// Reads an operand at a place.
fn take_operand(
    text: &[u8],
    operand: Operand,
    at: usize,
    instr: Instr,
) -> Result<(usize, Instr), AsmFault>
    requires { at ≤ length text.now }
    ensures reading { result ≡ reading.taken operand text.now at instr (reading.operand text.now at) }
    ensures within { IfOk result (λ p. p.0 ≤ length text.now) }
{
    let rest = &text[at..];
    let len = operand_len(rest);
    if len == 0 {
        return Err(AsmFault::BadShape {
            place: wanted(text, at) as u64,
        });
    }
    match read_operand(operand, at as u64, &rest[..len], instr) {
        Ok(instr) => Ok((at + len, instr)),
        Err(fault) => Err(fault),
    }
}

/// The instruction with an operand of this text, which begins at a place.
#[tactic(auto, unfolding(crate::specs::Reading::operand_reading))]
fn read_operand(operand: Operand, place: u64, text: &[u8], instr: Instr) -> Result<Instr, AsmFault>
    ensures { result ≡ reading.operand_reading operand place text.now instr }
{
    match operand {
        Operand::Register(slot) => match register_of(text) {
            Some(register) => Ok(with_register(slot, register, instr)),
            None => Err(AsmFault::BadRegister { place }),
        },
        Operand::Number(range) => match signed_of(text) {
            Some(value) => with_number(range, value, instr),
            None => Err(AsmFault::BadNumber { place }),
        },
        Operand::Set(side) => match set_of(text) {
            Some(set) => Ok(with_set(side, set, instr)),
            None => Err(AsmFault::BadNumber { place }),
        },
    }
}

fn with_register(slot: Slot, register: u8, instr: Instr) -> Instr
    ensures { result ≡ reading.with_register slot register instr }
{
    match slot {
        Slot::Rd => Instr {
            rd: register,
            ..instr
        },
        Slot::Rs1 => Instr {
            rs1: register,
            ..instr
        },
        Slot::Rs2 => Instr {
            rs2: register,
            ..instr
        },
    }
}

fn with_number(range: Range, value: i128, instr: Instr) -> Result<Instr, AsmFault>
    ensures { result ≡ reading.or_number range 0 instr (Some value) }
{
    if is_in(range, value) {
        return Ok(Instr {
            imm: value as i64,
            ..instr
        });
    }
    Err(AsmFault::OutOfRange { value })
}

/// Whether a number is in a range.
#[tactic(auto, unfolding(crate::specs::Reading::is_in))]
fn is_in(range: Range, value: i128) -> bool
    ensures test { result ≡ reading.is_in range value }
    ensures small { IsTrue result → (negsuc (2 ^ 31 - 1) ≤ℤ value) × (value ≤ℤ pos (2 ^ 31 - 1)) }
{
    if value < i128::from(range.first) {
        return false;
    }
    if value > i128::from(range.last) {
        return false;
    }
    if range.even {
        return value.unsigned_abs() % 2 == 0;
    }
    true
}

fn with_set(side: Side, set: u8, instr: Instr) -> Instr
    requires { set < 16 }
    ensures { result ≡ reading.with_set side set instr }
{
    match side {
        Side::Before => Instr {
            imm: i64::from(16 * set + set_after(instr.imm)),
            ..instr
        },
        Side::After => Instr {
            imm: i64::from(16 * set_before(instr.imm) + set),
            ..instr
        },
    }
}

/// The set of an immediate that comes before.
pub fn set_before(imm: i64) -> u8
    ensures set { result ≡ reading.set_before imm }
    ensures small { result < 16 }
{
    if imm < 0 {
        return 0;
    }
    (imm % 256 / 16) as u8
}

/// The set of an immediate that comes after.
pub fn set_after(imm: i64) -> u8
    ensures set { result ≡ reading.set_after imm }
    ensures small { result < 16 }
{
    if imm < 0 {
        return 0;
    }
    (imm % 16) as u8
}

/// The number of the set that a text names.
fn set_of(text: &[u8]) -> Option<u8>
    ensures set { result ≡ reading.set_of text.now }
    ensures small { IfSome result (λ s. s < 16) }
{
    find_set(text)
}

#[tactic(auto, unfolding(crate::specs::Reading::set_of))]
fn find_set(text: &[u8]) -> Option<u8>
    ensures { result ≡ reading.set_of text.now }
{
    SETS.iter().copied().find(|set| set_text(*set) == text)
}

/// One of x0 to x31, without leading zeros.
#[tactic(auto, unfolding(crate::specs::Reading::register_of))]
fn register_of(bytes: &[u8]) -> Option<u8>
    ensures number { result ≡ reading.register_of bytes.now }
    ensures small { IfSome result (λ r. r < 32) }
{
    if bytes.len() < 2 {
        return None;
    }
    if bytes[0] != b'x' {
        return None;
    }
    let first = digit_of(bytes[1])?;
    if bytes.len() == 2 {
        return Some(first);
    }
    if bytes.len() > 3 {
        return None;
    }
    let second = digit_of(bytes[2])?;
    let number = 10 * first + second;
    if first == 0 {
        None
    } else if number < 32 {
        Some(number)
    } else {
        None
    }
}

fn digit_of(byte: u8) -> Option<u8>
    ensures digit { SomeIff result (digit_value byte < 10) (digit_value byte) }
    ensures small { IfSome result (λ d. d < 10) }
{
    if byte < b'0' {
        return None;
    }
    if byte > b'9' {
        return None;
    }
    Some(byte - b'0')
}

/// A number with an optional sign.
#[tactic(auto, unfolding(crate::specs::Reading::signed_of))]
fn signed_of(bytes: &[u8]) -> Option<i128>
    ensures { result ≡ reading.signed_of bytes.now }
{
    if sign_of(bytes) == b'-' {
        return match read_number(&bytes[1..]) {
            Ok(number) => Some(0 - number as i128),
            Err(_) => None,
        };
    }
    if sign_of(bytes) == b'+' {
        return match read_number(&bytes[1..]) {
            Ok(number) => Some(number as i128),
            Err(_) => None,
        };
    }
    match read_number(bytes) {
        Ok(number) => Some(number as i128),
        Err(_) => None,
    }
}

/// The first byte, or 0 where there is none.
fn sign_of(bytes: &[u8]) -> u8
    ensures first { result ≡ slice_index bytes.now 0 }
    ensures some { result ≢ 0 → 1 ≤ length bytes.now }
{
    if bytes.is_empty() {
        return 0;
    }
    bytes[0]
}
