// What is compared.
use tm_base::{Bytes, List, Words};

/// What of a case is checked: one word for each hart, with bit r set exactly where x r is checked, and
/// one byte for each of the 6144 window bytes, 0xFF where it is checked and 0 elsewhere.
#[derive(Drop)]
pub struct CaseMask {
    pub regs: Words,
    pub bytes: Bytes,
}

/// One mask for each case.
#[derive(Drop)]
pub struct Masks {
    pub cases: List<CaseMask>,
}
