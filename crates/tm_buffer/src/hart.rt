// One hart: its registers, and the writes that wait in its buffer.
ghost use Rattle.std.specs.Prelude.{◌≡◌, ◌↔◌, ◌+◌, ◌<◌, All, IfOk, IsTrue, length, slice_index_or};
ghost use Rattle.std.specs.List.{remove};
ghost use Rattle.tm_world.specs.Course.{is_write};
ghost use Rattle.tm_buffer.specs.Buffer.{left_by, found_in, IsWaiting, share_by, IsFreeIn, queued};
ghost use Rattle.tm_buffer.specs.declared.hart.TheConstants.{BUFFER_WRITES};
ghost use Rattle.tm_buffer.specs.Start.{IsOpened, AreOpened};

use crate::bytes::byte_of;
use arrayvec::ArrayVec;
use std::alloc::Global;
use tm_base::NoMemory;
use tm_guest::start::first_cpu;
use tm_table::{Access, Cpu};

/// How many writes a buffer has room for.
pub const BUFFER_WRITES: usize = 8;

/// A write that waits: the number of steps before it, and the bytes that it writes.
#[derive(Clone, Copy, Default)]
pub struct Waiting {
    pub write: u32,
    pub addr: u64,
    pub width: u8,
    pub value: u64,
}

/// A hart, and its buffer, the newest write first.
#[derive(Drop)]
pub struct BufferedHart {
    pub cpu: Cpu,
    pub buffer: ArrayVec<Waiting, BUFFER_WRITES>,
}

impl Waiting {
    /// The byte that it writes at an address, if it writes there.
    pub fn byte_at(&self, b: u64) -> Option<u8>
        requires { IsWaiting self.now }
        ensures { result ≡ left_by b self.now }
    {
        if self.addr <= b && b - self.addr < u64::from(self.width) {
            Some(byte_of(self.value, b - self.addr))
        } else {
            None
        }
    }

    /// Whether it has a byte in common with another.
    pub fn shares(&self, other: &Waiting) -> bool
        requires this { IsWaiting self.now }
        requires that { IsWaiting other.now }
        ensures { result ≡ share_by self.now other.now }
    {
        self.addr < other.addr + u64::from(other.width)
            && other.addr < self.addr + u64::from(self.width)
    }
}

impl BufferedHart {
    /// Takes write `i`, counted from the newest, out of the buffer.
    pub fn take(&mut self, i: usize) -> Waiting
        requires { i < length self.old.buffer.items }
        ensures value { result ≡ slice_index_or self.old.buffer.items i result }
        ensures items { self.new.buffer.items ≡ remove self.old.buffer.items i }
        ensures cpu { self.new.cpu ≡ self.old.cpu }
        ensures shorter { length self.new.buffer.items + 1 ≡ length self.old.buffer.items }
    {
        self.buffer.remove(i)
    }

    /// Takes over the registers after a step, and what it writes, as the newest write in the buffer.
    pub fn queue(&mut self, cpu: Cpu, access: Access, place: u32)
        requires { IsTrue (is_write access) → length self.old.buffer.items < BUFFER_WRITES }
        ensures cpu { self.new.cpu ≡ cpu }
        ensures items { self.new.buffer.items ≡ queued place access self.old.buffer.items }
    {
        self.cpu = cpu;
        match access {
            Access::Write { addr, width, value } => self.buffer.insert(
                0,
                Waiting {
                    write: place,
                    addr,
                    width,
                    value,
                },
            ),
            Access::Quiet | Access::Read { .. } => {}
        }
    }
}

/// The byte that the newest of these writes which covers an address writes there, if one does.
pub fn found_in_buffer(buffer: &[Waiting], b: u64) -> Option<u8>
    requires { All IsWaiting buffer.now }
    ensures { result ≡ found_in b buffer.now }
{
    for w in buffer {
        match w.byte_at(b) {
            Some(byte) => return Some(byte),
            None => {}
        }
    }
    None
}

/// Whether no write behind place `i` of a buffer has a byte in common with the one there.
pub fn is_free(buffer: &[Waiting], i: usize) -> bool
    requires each { All IsWaiting buffer.now }
    requires inside { i < length buffer.now }
    ensures { IsTrue result ↔ IsFreeIn buffer.now i }
{
    for j in i + 1..buffer.len() {
        if buffer[j].shares(&buffer[i]) {
            return false;
        }
    }
    true
}

/// The harts before their first steps.
pub fn opened(alloc: Global, harts: u32) -> Result<Vec<BufferedHart>, NoMemory>
    ensures { IfOk result (λ v. AreOpened harts v.items) }
{
    let mut states = match Vec::with_capacity(alloc, harts as usize) {
        Ok(states) => states,
        Err(_) => return Err(NoMemory),
    };
    for h in 0..harts {
        match states.push(opened_at(h)) {
            Ok(()) => {}
            Err(_) => return Err(NoMemory),
        }
    }
    Ok(states)
}

/// A hart before its first step.
fn opened_at(h: u32) -> BufferedHart
    ensures { IsOpened h result }
{
    BufferedHart {
        cpu: first_cpu(h),
        buffer: ArrayVec::new(),
    }
}
