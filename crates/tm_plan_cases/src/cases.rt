// What is run: cases, each with one stream for each hart.
use tm_base::{List, Text, Words};
use tm_plan_map::{Kind2, Window};

/// The words of one hart in one case, and the first values of x0 to x31.
#[derive(Drop)]
pub struct Stream {
    pub words: Words,
    pub regs: [u64; 32],
}

/// One stream for each hart, and the first values of the 768 dwords of the three windows.
#[derive(Drop)]
pub struct Case {
    pub name: Text,
    pub streams: List<Stream>,
    pub first: List<u64>,
}

/// All cases of a test, and what they share. `line` is the line size in bytes.
#[derive(Drop)]
pub struct Cases {
    pub name: Text,
    pub harts: u32,
    pub line: u32,
    pub passes: u32,
    pub windows: List<Window>,
    pub cases: List<Case>,
}
