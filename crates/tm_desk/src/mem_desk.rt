// A desk in memory that fails where it is told to, for tests.
ghost use Rattle.std.specs.Prelude.{◌≡◌, ◌≤◌, ◌<◌, ◌⊎◌, ◌↔◌, ℕ, List, None, true, length, OnOk, OnErr, IfOk, IsSomeAnd};
ghost use Rattle.tm_desk.specs.Causes.{OthersStay};
ghost use Rattle.tm_desk.specs.Held.{file_of};

use crate::calls::Calls;
use crate::files::{File, find, put, whole};
use crate::{Desk, DeskError};
use std::alloc::Global;
use tm_base::{Bytes, List, NoMemory};

/// Files in memory. Reads and writes are numbered together, from 1, and those that are listed fail.
#[derive(Drop)]
pub struct MemDesk {
    alloc: Global,
    files: Vec<File>,
    calls: Calls,
}

impl MemDesk {
    ghost use Rattle.tm_desk.specs.Seen.{desk_files, desk_calls};

    /// A desk with no file, of which these calls fail.
    pub fn new(alloc: Global, fails: List<u64>) -> Self
        ensures empty { (name : List ℕ) → desk_files result name ≡ None }
        ensures calls { desk_calls result ≡ record { fails = fails; made = 0; faults = 0 } }
    {
        MemDesk {
            alloc,
            files: Vec::new(alloc),
            calls: Calls::new(fails),
        }
    }

    /// Puts a file there, which is no counted call, or changes nothing.
    pub fn put_file(&mut self, name: &str, bytes: &[u8]) -> Result<(), NoMemory>
        ensures ok { OnOk result (desk_files self.new name.now ≡ Some bytes.now) }
        ensures others { OthersStay (desk_files self.old) (desk_files self.new) name.now }
        ensures err { OnErr result (desk_files self.new ≡ desk_files self.old) }
        ensures calls { desk_calls self.new ≡ desk_calls self.old }
    {
        put(self.alloc, &mut self.files, name.as_bytes(), bytes)
    }
}

impl Desk for MemDesk {
    ghost use Rattle.tm_desk.specs.Seen.{desk_files, desk_calls, CountsCall, Fails};

    ghost tells = { true };

    ghost held = { λ d. file_of d.files.items };

    ghost faults = { λ d. d.calls.faults };

    fn read(&mut self, name: &str, max: u64) -> Result<Bytes, DeskError>
        ensures within { IfOk result (λ bytes. length bytes ≤ max) }
        ensures whole { IfOk result (λ bytes. desk_files self.old name.now ≡ Some bytes) }
        ensures unchanged { desk_files self.new ≡ desk_files self.old }
        ensures counted { CountsCall (desk_calls self.old) (desk_calls self.new) }
        ensures failed { (result ≡ Err DeskError.Failed)
            ↔ (Fails (desk_calls self.old) ⊎ (desk_files self.old name.now ≡ None)) }
        ensures long { (limit : ℕ) → result ≡ Err (DeskError.TooLong limit) →
            (limit ≡ max) × IsSomeAnd (desk_files self.old name.now) (λ bytes. max < length bytes) }
    {
        if self.calls.fails_now() {
            return Err(DeskError::Failed);
        }
        match find(&self.files, name.as_bytes()) {
            Some(file) => whole(self.alloc, file, max),
            None => Err(DeskError::Failed),
        }
    }

    fn write(&mut self, name: &str, bytes: &[u8]) -> Result<(), DeskError>
        ensures written { OnOk result (desk_files self.new name.now ≡ Some bytes.now) }
        ensures others { OthersStay (desk_files self.old) (desk_files self.new) name.now }
        ensures err { OnErr result (desk_files self.new ≡ desk_files self.old) }
        ensures counted { CountsCall (desk_calls self.old) (desk_calls self.new) }
        ensures failed { (result ≡ Err DeskError.Failed) ↔ Fails (desk_calls self.old) }
        ensures never_long { (limit : ℕ) → result ≡ Err (DeskError.TooLong limit) → ⊥ }
    {
        if self.calls.fails_now() {
            return Err(DeskError::Failed);
        }
        put(self.alloc, &mut self.files, name.as_bytes(), bytes).map_err(|_| DeskError::NoMemory)
    }
}
