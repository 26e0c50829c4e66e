use tm_base::Pos;

/// What a token is.
#[derive(Clone, Copy, Debug, PartialEq, Eq)]
pub enum TokenKind {
    Word,
    Raw,
    LineEnd,
}

/// A part of a text, with the place of its first byte.
#[derive(Clone, Copy, Debug, PartialEq, Eq)]
pub struct Token {
    pub kind: TokenKind,
    pub at: Pos,
    pub from: u64,
    pub to: u64,
}

/// Why a text has no tokens.
#[derive(Clone, Copy, Debug, PartialEq, Eq)]
pub enum LexFault {
    BadByte { pos: Pos, byte: u8 },
    LongWord { pos: Pos },
    NoMemory,
}
