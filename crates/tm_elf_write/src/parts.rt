// What the file of an image holds.
use tm_base::{Bytes, List, Text, Words};

/// The most symbols of an image.
pub const MOST_SYMBOLS: u32 = 65_535;

/// The most bytes of a symbol's name.
pub const SYMBOL_NAME_BYTES: usize = 32;

/// What an image was made from.
#[derive(Drop)]
pub struct Plan {
    /// The seed of all draws.
    pub seed: u64,
    /// The topology as it was read, of at most 65,536 bytes.
    pub topo: Bytes,
    /// The template as it was read, of at most 1,048,576 bytes.
    pub template: Bytes,
}

/// A name for an address of the text.
#[derive(Drop)]
pub struct Symbol {
    /// 1 to 32 ASCII bytes, none of them zero.
    pub name: Text,
    /// The address in the guest's memory.
    pub addr: u64,
}

/// An image: what a file of it holds.
#[derive(Drop)]
pub struct Parts {
    /// The instruction words from 0x8000_0000 on, 1 to 2,097,152 of them.
    pub text: Words,
    /// The bytes from 0x8080_0000 on, at most 4,194,304.
    pub tables: Bytes,
    pub plan: Plan,
    /// At most 65,535, in the order in which the file lists them.
    pub symbols: List<Symbol>,
}
