// A sink of bytes.
ghost use Rattle.std.specs.Prelude.{◌≡◌, ◌≤◌, ◌<◌, ◌++◌, ℕ, Bool, IsTrue, List, length, take, IfOk, OnOk, IfErr, OnErr};
ghost use Rattle.tm_desk.specs.Causes.{PutFault, taken_of};

use thiserror::Error;

/// Why a sink took no bytes.
#[derive(Clone, Copy, Debug, PartialEq, Eq, Error)]
pub enum SinkError {
    /// The outside failed.
    #[error("the bytes can't be written")]
    Failed,
    /// There was no memory.
    #[error("out of memory")]
    NoMemory,
}

/// Takes bytes, and has a count of faults that never falls. It stays at 2^64 - 1, its last value.
pub trait Sink {
    /// Whether contracts are told what was taken.
    ghost tells: { Bool };

    /// The bytes taken so far. Of a sink that doesn't tell, it says nothing.
    ghost taken: { Self → List ℕ };

    /// How often the outside has failed.
    ghost faults: { Self → ℕ };

    /// Takes the first bytes of a piece and answers how many, at least one where there is one. After an
    /// error it has taken none.
    fn put(&mut self, piece: &[u8]) -> Result<u64, SinkError>
        ensures within { IfOk result (λ n. n ≤ length piece.now) }
        ensures some { IfOk result (λ n. 0 < length piece.now → 0 < n) }
        ensures taken { IsTrue tells → taken self.new ≡ taken self.old ++ taken_of piece.now result }
        ensures later { faults self.old ≤ faults self.new }
        ensures quiet { OnOk result (faults self.new ≡ faults self.old) }
        ensures cause { IfErr result (λ e. PutFault e (faults self.old) (faults self.new)) };
}

/// Puts all the bytes, or a prefix where a put fails.
pub fn put_all<S: Sink>(sink: &mut S, bytes: &[u8]) -> Result<(), SinkError>
    ensures all { IsTrue S.tells → OnOk result (S.taken sink.new ≡ S.taken sink.old ++ bytes.now) }
    ensures prefix { IsTrue S.tells →
        OnErr result ((n : ℕ) × (S.taken sink.new ≡ S.taken sink.old ++ take n bytes.now)) }
    ensures later { S.faults sink.old ≤ S.faults sink.new }
    ensures quiet { OnOk result (S.faults sink.new ≡ S.faults sink.old) }
    ensures cause { IfErr result (λ e. PutFault e (S.faults sink.old) (S.faults sink.new)) }
{
    let mut at = 0usize;
    while at < bytes.len() {
        let count = sink.put(&bytes[at..])?;
        at += count as usize;
    }
    Ok(())
}
