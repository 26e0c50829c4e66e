use crate::instr::Op;

/// Which bits of a word an instruction fixes, and where its operands stand (RV64I 2.1).
#[derive(Clone, Copy)]
pub enum Layout {
    /// Two sources and a target.
    R,
    /// A source, a target and 12 bits.
    I,
    /// Two sources and 12 bits, as stores have.
    S,
    /// Two sources and an even offset, as branches have.
    B,
    /// A target and the upper 20 bits.
    U,
    /// A target and an even offset, as jumps have.
    J,
    /// A shift of 64 bits by an amount.
    Shift6,
    /// A shift of 32 bits by an amount.
    Shift5,
    /// FENCE: its predecessors and successors.
    Order,
    /// A word with no operands.
    Whole,
}

/// One row of the instruction table. `funct6` is the upper six bits of funct7; `extra` is the lowest bit of funct7
/// where there are two sources and a target, and what stands in the place of rs2 in a word with no operands.
#[derive(Clone, Copy)]
pub struct Row {
    pub op: Op,
    pub layout: Layout,
    pub opcode: u8,
    pub funct3: u8,
    pub funct6: u8,
    pub extra: u8,
}

/// The parts of a word, from the lowest bit up.
#[derive(Clone, Copy)]
pub struct Fields {
    pub opcode: u8,
    pub rd: u8,
    pub funct3: u8,
    pub rs1: u8,
    pub rs2: u8,
    pub bit25: u8,
    pub funct6: u8,
}

/// A row, written as the listings have it: op, layout, opcode, funct3, funct6 and extra.
macro_rules! row {
    ($op:ident, $layout:ident, $opcode:literal, $funct3:literal, $funct6:literal, $extra:literal) => {
        Row {
            op: Op::$op,
            layout: Layout::$layout,
            opcode: $opcode,
            funct3: $funct3,
            funct6: $funct6,
            extra: $extra,
        }
    };
}

/// The rows of the instruction table, in the order of the ops (RV64I 2.1 and M 2.0, instruction listings).
pub static ROWS: [Row; 65] = [
    row!(Lui, U, 0x37, 0, 0, 0),
    row!(Auipc, U, 0x17, 0, 0, 0),
    row!(Jal, J, 0x6f, 0, 0, 0),
    row!(Jalr, I, 0x67, 0, 0, 0),
    row!(Beq, B, 0x63, 0, 0, 0),
    row!(Bne, B, 0x63, 1, 0, 0),
    row!(Blt, B, 0x63, 4, 0, 0),
    row!(Bge, B, 0x63, 5, 0, 0),
    row!(Bltu, B, 0x63, 6, 0, 0),
    row!(Bgeu, B, 0x63, 7, 0, 0),
    row!(Lb, I, 0x03, 0, 0, 0),
    row!(Lh, I, 0x03, 1, 0, 0),
    row!(Lw, I, 0x03, 2, 0, 0),
    row!(Ld, I, 0x03, 3, 0, 0),
    row!(Lbu, I, 0x03, 4, 0, 0),
    row!(Lhu, I, 0x03, 5, 0, 0),
    row!(Lwu, I, 0x03, 6, 0, 0),
    row!(Sb, S, 0x23, 0, 0, 0),
    row!(Sh, S, 0x23, 1, 0, 0),
    row!(Sw, S, 0x23, 2, 0, 0),
    row!(Sd, S, 0x23, 3, 0, 0),
    row!(Addi, I, 0x13, 0, 0, 0),
    row!(Slti, I, 0x13, 2, 0, 0),
    row!(Sltiu, I, 0x13, 3, 0, 0),
    row!(Xori, I, 0x13, 4, 0, 0),
    row!(Ori, I, 0x13, 6, 0, 0),
    row!(Andi, I, 0x13, 7, 0, 0),
    row!(Slli, Shift6, 0x13, 1, 0, 0),
    row!(Srli, Shift6, 0x13, 5, 0, 0),
    row!(Srai, Shift6, 0x13, 5, 16, 0),
    row!(Add, R, 0x33, 0, 0, 0),
    row!(Sll, R, 0x33, 1, 0, 0),
    row!(Slt, R, 0x33, 2, 0, 0),
    row!(Sltu, R, 0x33, 3, 0, 0),
    row!(Xor, R, 0x33, 4, 0, 0),
    row!(Srl, R, 0x33, 5, 0, 0),
    row!(Or, R, 0x33, 6, 0, 0),
    row!(And, R, 0x33, 7, 0, 0),
    row!(Sub, R, 0x33, 0, 16, 0),
    row!(Sra, R, 0x33, 5, 16, 0),
    row!(Addiw, I, 0x1b, 0, 0, 0),
    row!(Slliw, Shift5, 0x1b, 1, 0, 0),
    row!(Srliw, Shift5, 0x1b, 5, 0, 0),
    row!(Sraiw, Shift5, 0x1b, 5, 16, 0),
    row!(Addw, R, 0x3b, 0, 0, 0),
    row!(Sllw, R, 0x3b, 1, 0, 0),
    row!(Srlw, R, 0x3b, 5, 0, 0),
    row!(Subw, R, 0x3b, 0, 16, 0),
    row!(Sraw, R, 0x3b, 5, 16, 0),
    row!(Fence, Order, 0x0f, 0, 0, 0),
    row!(Ecall, Whole, 0x73, 0, 0, 0),
    row!(Ebreak, Whole, 0x73, 0, 0, 1),
    row!(Mul, R, 0x33, 0, 0, 1),
    row!(Mulh, R, 0x33, 1, 0, 1),
    row!(Mulhsu, R, 0x33, 2, 0, 1),
    row!(Mulhu, R, 0x33, 3, 0, 1),
    row!(Div, R, 0x33, 4, 0, 1),
    row!(Divu, R, 0x33, 5, 0, 1),
    row!(Rem, R, 0x33, 6, 0, 1),
    row!(Remu, R, 0x33, 7, 0, 1),
    row!(Mulw, R, 0x3b, 0, 0, 1),
    row!(Divw, R, 0x3b, 4, 0, 1),
    row!(Divuw, R, 0x3b, 5, 0, 1),
    row!(Remw, R, 0x3b, 6, 0, 1),
    row!(Remuw, R, 0x3b, 7, 0, 1),
];
