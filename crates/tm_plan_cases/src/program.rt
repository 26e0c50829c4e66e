// What an image holds, as a machine runs it.
use crate::cases::Cases;
use crate::masks::Masks;
use tm_base::{Bytes, List, Words};

/// The addresses that symbols name. `starts` and `ends` have index `h * C + c` for hart h and case c of C,
/// `exits` and `halts` have index h.
#[derive(Drop)]
pub struct Marks {
    pub starts: List<u64>,
    pub ends: List<u64>,
    pub exits: List<u64>,
    pub halts: List<u64>,
}

/// The cases, what is checked of them, and the words and tables that run them.
#[derive(Drop)]
pub struct Program {
    pub cases: Cases,
    pub masks: Masks,
    pub marks: Marks,
    pub text: Words,
    pub tables: Bytes,
}
