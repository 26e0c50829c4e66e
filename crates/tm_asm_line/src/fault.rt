use thiserror::Error;

/// Why a text is no instruction. Places are bytes of the text, counted from 0.
#[derive(Clone, Copy, Debug, PartialEq, Eq, Error)]
pub enum AsmFault {
    /// The text begins with no name of an op.
    #[error("no name of an instruction")]
    UnknownName,
    /// The operand at `place` should be a register.
    #[error("no register at byte {place}")]
    BadRegister { place: u64 },
    /// The operand at `place` should be a number or a set, or it is a number of 2^64 or more.
    #[error("no number at byte {place}")]
    BadNumber { place: u64 },
    /// The number is outside the operand's range, or odd where it must be even.
    #[error("{value} is out of range")]
    OutOfRange { value: i128 },
    /// An operand, comma or parenthesis is missing at `place`, or something stands there behind the last one.
    #[error("something is missing or left over at byte {place}")]
    BadShape { place: u64 },
}
