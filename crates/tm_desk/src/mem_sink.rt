// A sink in memory that fails where it is told to, for tests.
ghost use Rattle.std.specs.Prelude.{◌≡◌, ◌≤◌, ◌++◌, ◌↔◌, [], true, length, min, IfOk};
ghost use Rattle.tm_desk.specs.Causes.{taken_of};

use crate::calls::Calls;
use crate::{Sink, SinkError};
use std::alloc::Global;
use tm_base::{Bytes, List, NoMemory};

/// Takes bytes into memory, at most `most` in a put. The puts whose numbers are listed, from 1, fail.
#[derive(Drop)]
pub struct MemSink {
    taken: Bytes,
    most: u64,
    calls: Calls,
    ghost at_least_one: { 1 ≤ most },
}

impl MemSink {
    ghost use Rattle.tm_desk.specs.Seen.{sink_taken, sink_most, sink_calls};

    /// A sink that has taken nothing, takes at most so many bytes in a put, and fails in these puts.
    pub fn new(alloc: Global, most: u64, fails: List<u64>) -> Self
        requires { 1 ≤ most }
        ensures taken { sink_taken result ≡ [] }
        ensures most { sink_most result ≡ most }
        ensures calls { sink_calls result ≡ record { fails = fails; made = 0; faults = 0 } }
    {
        MemSink {
            taken: Bytes::new(alloc),
            most,
            calls: Calls::new(fails),
        }
    }

    /// The bytes taken so far.
    pub fn taken(&self) -> &[u8]
        ensures { result.now ≡ sink_taken self.now }
    {
        self.taken.as_slice()
    }
}

impl Sink for MemSink {
    ghost use Rattle.tm_desk.specs.Seen.{sink_taken, sink_most, sink_calls, CountsCall, Fails};

    ghost tells = { true };

    ghost taken = { λ s. s.taken };

    ghost faults = { λ s. s.calls.faults };

    fn put(&mut self, piece: &[u8]) -> Result<u64, SinkError>
        ensures count { IfOk result (λ n. n ≡ min (sink_most self.old) (length piece.now)) }
        ensures taken { sink_taken self.new ≡ sink_taken self.old ++ taken_of piece.now result }
        ensures most { sink_most self.new ≡ sink_most self.old }
        ensures counted { CountsCall (sink_calls self.old) (sink_calls self.new) }
        ensures failed { (result ≡ Err SinkError.Failed) ↔ Fails (sink_calls self.old) }
    {
        if self.calls.fails_now() {
            return Err(SinkError::Failed);
        }
        let count = self.most.min(piece.len() as u64);
        match self.taken.append(&piece[..count as usize]) {
            Ok(()) => Ok(count),
            Err(NoMemory) => Err(SinkError::NoMemory),
        }
    }
}
