// A sink in memory that never fails.
ghost use Rattle.std.specs.Prelude.{◌≡◌, ◌++◌, [], true, length, IfOk};
ghost use Rattle.tm_desk.specs.Causes.{taken_of};

use crate::{Sink, SinkError};
use std::alloc::Global;
use tm_base::{Bytes, NoMemory};

/// Takes each piece whole into memory, and never fails.
#[derive(Drop)]
pub struct CalmSink {
    taken: Bytes,
}

impl CalmSink {
    ghost use Rattle.tm_desk.specs.Seen.{calm_taken};

    /// A sink that has taken nothing.
    pub fn new(alloc: Global) -> Self
        ensures { calm_taken result ≡ [] }
    {
        CalmSink {
            taken: Bytes::new(alloc),
        }
    }

    /// The bytes taken so far.
    pub fn taken(&self) -> &[u8]
        ensures { result.now ≡ calm_taken self.now }
    {
        self.taken.as_slice()
    }
}

impl Sink for CalmSink {
    ghost use Rattle.tm_desk.specs.Seen.{calm_taken};

    ghost tells = { true };

    ghost taken = { λ s. s.taken };

    ghost faults = { λ _. 0 };

    fn put(&mut self, piece: &[u8]) -> Result<u64, SinkError>
        ensures count { IfOk result (λ n. n ≡ length piece.now) }
        ensures taken { calm_taken self.new ≡ calm_taken self.old ++ taken_of piece.now result }
        ensures never { result ≡ Err SinkError.Failed → ⊥ }
    {
        match self.taken.append(piece) {
            Ok(()) => Ok(piece.len() as u64),
            Err(NoMemory) => Err(SinkError::NoMemory),
        }
    }
}
