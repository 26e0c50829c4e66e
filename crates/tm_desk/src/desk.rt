// A desk of files by name.
ghost use Rattle.std.specs.Prelude.{◌≡◌, ◌≤◌, ℕ, Bool, IsTrue, length, IfOk, OnOk, IfErr};
ghost use Rattle.tm_desk.specs.Causes.{Files, ReadFault, WriteFault, OthersStay};

use thiserror::Error;
use tm_base::Bytes;

/// Why a desk gave or took no file.
#[derive(Clone, Copy, Debug, PartialEq, Eq, Error)]
pub enum DeskError {
    /// The outside failed, or a desk that tells its files holds none of this name.
    #[error("the file can't be read or written")]
    Failed,
    /// The file has more than `max` bytes.
    #[error("the file is longer than {max} bytes")]
    TooLong { max: u64 },
    /// There was no memory.
    #[error("out of memory")]
    NoMemory,
}

/// Files by name, and a count of faults that never falls. It stays at 2^64 - 1, its last value.
pub trait Desk {
    /// Whether contracts are told what is held.
    ghost tells: { Bool };

    /// The files by the bytes of their names. Of a desk that doesn't tell, it says nothing.
    ghost held: { Self → Files };

    /// How often the outside has failed.
    ghost faults: { Self → ℕ };

    /// Reads a whole file of at most `max` bytes. It changes no file.
    ///
    /// A missing file is `Failed`. A desk that tells its files doesn't count it as a fault, and one that
    /// doesn't tell them does.
    fn read(&mut self, name: &str, max: u64) -> Result<Bytes, DeskError>
        ensures within { IfOk result (λ bytes. length bytes ≤ max) }
        ensures whole { IsTrue tells → IfOk result (λ bytes. held self.old name.now ≡ Some bytes) }
        ensures unchanged { IsTrue tells → held self.new ≡ held self.old }
        ensures later { faults self.old ≤ faults self.new }
        ensures quiet { OnOk result (faults self.new ≡ faults self.old) }
        ensures cause { IfErr result (λ e.
            ReadFault e (IsTrue tells) (held self.old name.now) max (faults self.old) (faults self.new)) };

    /// Puts a file in the place of the one of that name. It is never `TooLong`.
    ///
    /// After an error nothing is known of that one file.
    fn write(&mut self, name: &str, bytes: &[u8]) -> Result<(), DeskError>
        ensures written { IsTrue tells → OnOk result (held self.new name.now ≡ Some bytes.now) }
        ensures others { IsTrue tells → OthersStay (held self.old) (held self.new) name.now }
        ensures later { faults self.old ≤ faults self.new }
        ensures quiet { OnOk result (faults self.new ≡ faults self.old) }
        ensures cause { IfErr result (λ e. WriteFault e (faults self.old) (faults self.new)) };
}
