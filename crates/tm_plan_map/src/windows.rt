// Windows of shared memory.

/// How the harts share a window: all of each line, a part of each line, or lines of their own.
#[derive(Clone, Copy, Debug, PartialEq, Eq)]
pub enum Kind2 {
    True,
    False,
    Own,
}

/// A window of shared memory, of which the first `lines` lines are declared. `number` is below 3.
#[derive(Clone, Copy, Debug, PartialEq, Eq)]
pub struct Window {
    pub number: u32,
    pub kind: Kind2,
    pub lines: u32,
}
