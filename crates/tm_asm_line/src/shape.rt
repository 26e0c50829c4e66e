// The names of the ops, and the table of their operands.
ghost use Rattle.std.specs.Prelude.{◌≡◌, ◌≤◌, length};
ghost use Rattle.tm_asm_line.specs.Shapes.{name_of, shape_of as own_shape_of, pieces_of, set_text as text_of_set};

use tm_table::Op;

/// A field that a register goes to.
#[derive(Clone, Copy)]
pub enum Slot {
    Rd,
    Rs1,
    Rs2,
}

/// Which of the two sets of FENCE: what comes before it, and what comes after it.
#[derive(Clone, Copy)]
pub enum Side {
    Before,
    After,
}

/// The numbers from `first` to `last`, or the even ones of them.
#[derive(Clone, Copy)]
pub struct Range {
    pub first: i32,
    pub last: i32,
    pub even: bool,
}

/// An operand.
#[derive(Clone, Copy)]
pub enum Operand {
    Register(Slot),
    Number(Range),
    Set(Side),
}

/// A part of an op's operands: one of them, or a comma or parenthesis.
#[derive(Clone, Copy)]
pub enum Piece {
    Take(Operand),
    Mark(u8),
}

/// Which operands an op has.
#[derive(Clone, Copy)]
pub enum Shape {
    /// A target and 20 bits.
    Upper,
    /// A target and an even offset.
    Jump,
    /// A target, and an offset from a register.
    Memory,
    /// Two sources and an even offset.
    Branch,
    /// A source, and an offset from a register.
    Store,
    /// A target, a source and a number.
    Immediate,
    /// A target, a source and an amount below 64.
    Shift64,
    /// A target, a source and an amount below 32.
    Shift32,
    /// A target and two sources.
    Registers,
    /// Two sets.
    Fences,
    /// None.
    Bare,
}

/// Operands, written as they stand in a line: `rd`, `rs1` and `rs2` are registers, `a..=b` is a number, `comma`,
/// `open` and
/// `close` are the marks between them.
macro_rules! piece {
    (rd) => {
        Piece::Take(Operand::Register(Slot::Rd))
    };
    (rs1) => {
        Piece::Take(Operand::Register(Slot::Rs1))
    };
    (rs2) => {
        Piece::Take(Operand::Register(Slot::Rs2))
    };
    (before) => {
        Piece::Take(Operand::Set(Side::Before))
    };
    (after) => {
        Piece::Take(Operand::Set(Side::After))
    };
    (comma) => {
        Piece::Mark(b',')
    };
    (open) => {
        Piece::Mark(b'(')
    };
    (close) => {
        Piece::Mark(b')')
    };
    ((all $first:literal $last:literal)) => {
        Piece::Take(Operand::Number(Range {
            first: $first,
            last: $last,
            even: false,
        }))
    };
    ((even $first:literal $last:literal)) => {
        Piece::Take(Operand::Number(Range {
            first: $first,
            last: $last,
            even: true,
        }))
    };
}

macro_rules! pieces {
    ($($piece:tt)*) => {
        [$(piece!($piece)),*]
    };
}

const UPPER: [Piece; 3] = pieces!(rd comma (all 0 1048575));

const JUMP: [Piece; 3] = pieces!(rd comma (even -1048576 1048574));

const MEMORY: [Piece; 6] = pieces!(rd comma (all -2048 2047) open rs1 close);

const BRANCH: [Piece; 5] = pieces!(rs1 comma rs2 comma (even -4096 4094));

const STORE: [Piece; 6] = pieces!(rs2 comma (all -2048 2047) open rs1 close);

const IMMEDIATE: [Piece; 5] = pieces!(rd comma rs1 comma (all -2048 2047));

const SHIFT64: [Piece; 5] = pieces!(rd comma rs1 comma (all 0 63));

const SHIFT32: [Piece; 5] = pieces!(rd comma rs1 comma (all 0 31));

const REGISTERS: [Piece; 5] = pieces!(rd comma rs1 comma rs2);

const FENCES: [Piece; 3] = pieces!(before comma after);

/// What the operands are, from left to right.
#[tactic(auto, unfolding(crate::specs::Shapes::pieces_of))]
pub fn pieces(shape: Shape) -> &'static [Piece]
    ensures pieces { result.now ≡ pieces_of shape }
    ensures few { length result.now ≤ 6 }
{
    match shape {
        Shape::Upper => &UPPER,
        Shape::Jump => &JUMP,
        Shape::Memory => &MEMORY,
        Shape::Branch => &BRANCH,
        Shape::Store => &STORE,
        Shape::Immediate => &IMMEDIATE,
        Shape::Shift64 => &SHIFT64,
        Shape::Shift32 => &SHIFT32,
        Shape::Registers => &REGISTERS,
        Shape::Fences => &FENCES,
        Shape::Bare => &[],
    }
}

/// The operands of an op.
#[tactic(auto, unfolding(crate::specs::Shapes::shape_of))]
pub fn shape_of(op: Op) -> Shape
    ensures { result ≡ own_shape_of op }
{
    match op {
        Op::Lui | Op::Auipc => Shape::Upper,
        Op::Jal => Shape::Jump,
        Op::Jalr | Op::Lb | Op::Lh | Op::Lw | Op::Ld | Op::Lbu | Op::Lhu | Op::Lwu => Shape::Memory,
        Op::Beq | Op::Bne | Op::Blt | Op::Bge | Op::Bltu | Op::Bgeu => Shape::Branch,
        Op::Sb | Op::Sh | Op::Sw | Op::Sd => Shape::Store,
        Op::Addi | Op::Slti | Op::Sltiu | Op::Xori | Op::Ori | Op::Andi | Op::Addiw =>
            Shape::Immediate,
        Op::Slli | Op::Srli | Op::Srai => Shape::Shift64,
        Op::Slliw | Op::Srliw | Op::Sraiw => Shape::Shift32,
        Op::Add
        | Op::Sll
        | Op::Slt
        | Op::Sltu
        | Op::Xor
        | Op::Srl
        | Op::Or
        | Op::And
        | Op::Sub
        | Op::Sra
        | Op::Addw
        | Op::Sllw
        | Op::Srlw
        | Op::Subw
        | Op::Sraw => Shape::Registers,
        Op::Mul
        | Op::Mulh
        | Op::Mulhsu
        | Op::Mulhu
        | Op::Div
        | Op::Divu
        | Op::Rem
        | Op::Remu
        | Op::Mulw
        | Op::Divw
        | Op::Divuw
        | Op::Remw
        | Op::Remuw => Shape::Registers,
        Op::Fence => Shape::Fences,
        Op::Ecall | Op::Ebreak => Shape::Bare,
    }
}

/// The name of an op, in lower case, as it stands in a line.
#[tactic(auto, unfolding(crate::specs::Shapes::name_of))]
pub fn name(op: Op) -> &'static [u8]
    ensures name { result.now ≡ name_of op }
    ensures short { length result.now ≤ 6 }
{
    match op {
        Op::Lui => b"lui".as_slice(),
        Op::Auipc => b"auipc".as_slice(),
        Op::Jal => b"jal".as_slice(),
        Op::Jalr => b"jalr".as_slice(),
        Op::Beq => b"beq".as_slice(),
        Op::Bne => b"bne".as_slice(),
        Op::Blt => b"blt".as_slice(),
        Op::Bge => b"bge".as_slice(),
        Op::Bltu => b"bltu".as_slice(),
        Op::Bgeu => b"bgeu".as_slice(),
        Op::Lb => b"lb".as_slice(),
        Op::Lh => b"lh".as_slice(),
        Op::Lw => b"lw".as_slice(),
        Op::Ld => b"ld".as_slice(),
        Op::Lbu => b"lbu".as_slice(),
        Op::Lhu => b"lhu".as_slice(),
        Op::Lwu => b"lwu".as_slice(),
        Op::Sb => b"sb".as_slice(),
        Op::Sh => b"sh".as_slice(),
        Op::Sw => b"sw".as_slice(),
        Op::Sd => b"sd".as_slice(),
        Op::Addi => b"addi".as_slice(),
        Op::Slti => b"slti".as_slice(),
        Op::Sltiu => b"sltiu".as_slice(),
        Op::Xori => b"xori".as_slice(),
        Op::Ori => b"ori".as_slice(),
        Op::Andi => b"andi".as_slice(),
        Op::Slli => b"slli".as_slice(),
        Op::Srli => b"srli".as_slice(),
        Op::Srai => b"srai".as_slice(),
        Op::Add => b"add".as_slice(),
        Op::Sll => b"sll".as_slice(),
        Op::Slt => b"slt".as_slice(),
        Op::Sltu => b"sltu".as_slice(),
        Op::Xor => b"xor".as_slice(),
        Op::Srl => b"srl".as_slice(),
        Op::Or => b"or".as_slice(),
        Op::And => b"and".as_slice(),
        Op::Sub => b"sub".as_slice(),
        Op::Sra => b"sra".as_slice(),
        Op::Addiw => b"addiw".as_slice(),
        Op::Slliw => b"slliw".as_slice(),
        Op::Srliw => b"srliw".as_slice(),
        Op::Sraiw => b"sraiw".as_slice(),
        Op::Addw => b"addw".as_slice(),
        Op::Sllw => b"sllw".as_slice(),
        Op::Srlw => b"srlw".as_slice(),
        Op::Subw => b"subw".as_slice(),
        Op::Sraw => b"sraw".as_slice(),
        Op::Fence => b"fence".as_slice(),
        Op::Ecall => b"ecall".as_slice(),
        Op::Ebreak => b"ebreak".as_slice(),
        Op::Mul => b"mul".as_slice(),
        Op::Mulh => b"mulh".as_slice(),
        Op::Mulhsu => b"mulhsu".as_slice(),
        Op::Mulhu => b"mulhu".as_slice(),
        Op::Div => b"div".as_slice(),
        Op::Divu => b"divu".as_slice(),
        Op::Rem => b"rem".as_slice(),
        Op::Remu => b"remu".as_slice(),
        Op::Mulw => b"mulw".as_slice(),
        Op::Divw => b"divw".as_slice(),
        Op::Divuw => b"divuw".as_slice(),
        Op::Remw => b"remw".as_slice(),
        Op::Remuw => b"remuw".as_slice(),
    }
}

/// The ops, in the table's order.
pub static OPS: [Op; 65] = [
    Op::Lui,
    Op::Auipc,
    Op::Jal,
    Op::Jalr,
    Op::Beq,
    Op::Bne,
    Op::Blt,
    Op::Bge,
    Op::Bltu,
    Op::Bgeu,
    Op::Lb,
    Op::Lh,
    Op::Lw,
    Op::Ld,
    Op::Lbu,
    Op::Lhu,
    Op::Lwu,
    Op::Sb,
    Op::Sh,
    Op::Sw,
    Op::Sd,
    Op::Addi,
    Op::Slti,
    Op::Sltiu,
    Op::Xori,
    Op::Ori,
    Op::Andi,
    Op::Slli,
    Op::Srli,
    Op::Srai,
    Op::Add,
    Op::Sll,
    Op::Slt,
    Op::Sltu,
    Op::Xor,
    Op::Srl,
    Op::Or,
    Op::And,
    Op::Sub,
    Op::Sra,
    Op::Addiw,
    Op::Slliw,
    Op::Srliw,
    Op::Sraiw,
    Op::Addw,
    Op::Sllw,
    Op::Srlw,
    Op::Subw,
    Op::Sraw,
    Op::Fence,
    Op::Ecall,
    Op::Ebreak,
    Op::Mul,
    Op::Mulh,
    Op::Mulhsu,
    Op::Mulhu,
    Op::Div,
    Op::Divu,
    Op::Rem,
    Op::Remu,
    Op::Mulw,
    Op::Divw,
    Op::Divuw,
    Op::Remw,
    Op::Remuw,
];

/// The sets of FENCE.
pub static SETS: [u8; 16] = [0, 1, 2, 3, 4, 5, 6, 7, 8, 9, 10, 11, 12, 13, 14, 15];

/// The text of a set of FENCE.
#[tactic(auto, unfolding(crate::specs::Shapes::set_text))]
pub fn set_text(set: u8) -> &'static [u8]
    ensures text { result.now ≡ text_of_set set }
    ensures short { length result.now ≤ 4 }
{
    match set {
        0 => b"0".as_slice(),
        1 => b"w".as_slice(),
        2 => b"r".as_slice(),
        3 => b"rw".as_slice(),
        4 => b"o".as_slice(),
        5 => b"ow".as_slice(),
        6 => b"or".as_slice(),
        7 => b"orw".as_slice(),
        8 => b"i".as_slice(),
        9 => b"iw".as_slice(),
        10 => b"ir".as_slice(),
        11 => b"irw".as_slice(),
        12 => b"io".as_slice(),
        13 => b"iow".as_slice(),
        14 => b"ior".as_slice(),
        _ => b"iorw".as_slice(),
    }
}
