ghost use Rattle.std.specs.Prelude.{◌≡◌, slice_index};

/// The registers and the program counter of one hart. `x[0]` is always 0.
#[derive(Clone, Copy)]
pub struct Cpu {
    pub pc: u64,
    pub x: [u64; 32],
    pub ghost zero: { slice_index x 0 ≡ 0 },
}

impl Cpu {
    /// A hart at `pc` with these registers.
    pub fn new(pc: u64, x: [u64; 32]) -> Self
        requires { slice_index x 0 ≡ 0 }
        ensures pc { result.pc ≡ pc }
        ensures x { result.x ≡ x }
    {
        Cpu { pc, x }
    }
}

/// What one instruction does to the memory. `width` is in bytes, and `value` is the little-endian bytes
/// as a number below 2 to the power of 8 times `width`, as they stand in memory.
#[derive(Clone, Copy, Debug, PartialEq, Eq)]
pub enum Access {
    Quiet,
    Read { addr: u64, width: u8, value: u64 },
    Write { addr: u64, width: u8, value: u64 },
}
