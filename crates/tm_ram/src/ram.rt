// A region of memory.
ghost use Rattle.std.specs.Prelude.{◌≡◌, ◌+◌, ◌-◌, ◌<◌, ◌≤◌, ◌%◌, ◌^◌, ◌*◌, ◌/◌, ◌⊎◌, ℕ, slice_index, length, IfOk};
ghost use Rattle.tm_base.specs.declared.limits.TheConstants.{GUEST_BYTES};
ghost use Rattle.tm_ram.specs.Region.{IsPlace, number_at, with_number};

use crate::bytes::{number, put};
use std::alloc::Global;
use std::marker::Model;
use tm_base::NoMemory;

/// The bytes from an address on. A contract sees the first address and the list of the bytes.
#[derive(Drop)]
pub struct Ram {
    base: u64,
    bytes: Vec<u8>,
}

impl Model for Ram {
    ghost use Rattle.tm_ram.specs.Region.{Region, IsRegion};

    ghost Value = { Region };

    ghost view = { λ r. record { base = r.base; bytes = r.bytes.items } };

    ghost invariant = { λ r. IsRegion (record { base = r.base; bytes = r.bytes.items }) };
}

impl Ram {
    /// `len` bytes from the address `base` on, all 0.
    pub fn new(alloc: Global, base: u64, len: u64) -> Result<Ram, NoMemory>
        requires base { base % 8 ≡ 0 }
        requires whole { len % 8 ≡ 0 }
        requires some { 8 ≤ len }
        requires few { len ≤ GUEST_BYTES }
        requires end { base + len < 2 ^ 64 }
        ensures base { IfOk result (λ r. r.base ≡ base) }
        ensures zeros { IfOk result (λ r. (k : ℕ) → slice_index r.bytes k ≡ 0) }
        ensures long { IfOk result (λ r. length r.bytes ≡ len) }
    {
        match vec![in alloc; 0u8; len as usize] {
            Ok(bytes) => Ok(Ram { base, bytes }),
            Err(_) => Err(NoMemory),
        }
    }

    /// The number whose `width` bytes stand at an address, the lowest byte first.
    pub fn load(&self, addr: u64, width: u8) -> u64
        requires { IsPlace self.now addr width }
        ensures value { result ≡ number_at self.now.bytes (addr - self.now.base) width }
        ensures small { result < 2 ^ (8 * width) }
        ensures bytes { (i : ℕ) → i < width
            → result / 256 ^ i % 256 ≡ slice_index self.now.bytes (addr - self.now.base + i) }
    {
        number(self.bytes.as_slice(), (addr - self.base) as usize, width)
    }

    /// Writes the low `width` bytes of `value` at an address, the lowest byte first. No other byte changes.
    pub fn store(&mut self, addr: u64, width: u8, value: u64)
        requires { IsPlace self.old addr width }
        ensures base { self.new.base ≡ self.old.base }
        ensures bytes { self.new.bytes
            ≡ with_number self.old.bytes (addr - self.old.base) width value }
        ensures long { length self.new.bytes ≡ length self.old.bytes }
        ensures inside { (i : ℕ) → i < width
            → slice_index self.new.bytes (addr - self.old.base + i) ≡ value / 256 ^ i % 256 }
        ensures outside { (k : ℕ) → (k < addr - self.old.base) ⊎ (addr - self.old.base + width ≤ k)
            → slice_index self.new.bytes k ≡ slice_index self.old.bytes k }
    {
        let at = (addr - self.base) as usize;
        put(self.bytes.as_mut_slice(), at, width, value);
    }
}
