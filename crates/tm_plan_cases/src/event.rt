// What happens in a simulation.
use tm_table::Access;

/// One instruction of one hart: where it stood, its word, and what it did in memory.
#[derive(Clone, Copy, Debug, PartialEq, Eq)]
pub struct Event {
    pub hart: u32,
    pub pc: u64,
    pub word: u32,
    pub access: Access,
}
