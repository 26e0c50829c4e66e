//! What all crates share: places in texts, lists that grow, names, and numbers read and printed.
#![tactic(auto)]

mod limits;
mod lists;
mod name;
mod numbers;

pub use limits::{
    CASE_ROOM, DEFAULT_EVENTS, GUEST_ADDRESS, GUEST_BYTES, HART_ROOM, IMAGE_1_ALU_OPS,
    IMAGE_1_CASES, IMAGE_1_HARTS, IMAGE_BYTES, IMAGE_VERSION, LEAST_PASSES, LONG_LINE, MIDDLE_LINE,
    MOST_BIAS, MOST_EVENTS, MOST_PASSES, MOST_SLOTS, MOST_WEIGHTS, NAME_BYTES, SHORT_LINE,
    TABLES_BYTES, TEMPLATE_BYTES, TEXT_WORDS, TOPOLOGY_BYTES, WINDOW_BYTES, WINDOWS, WORD_BYTES,
    alu_ops, most_cases, most_harts,
};
pub use lists::{Bytes, List, NoMemory, Text, Words};
pub use name::Name;
pub use numbers::{NumberFault, push_decimal, push_hex, push_pos, read_number};

/// A place in a text, its line and its byte in the line counted from 1.
#[derive(Clone, Copy, Debug, PartialEq, Eq)]
pub struct Pos {
    pub line: u32,
    pub col: u32,
}
