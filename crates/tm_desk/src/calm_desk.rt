// A desk in memory that never fails.
ghost use Rattle.std.specs.Prelude.{◌≡◌, ℕ, List, [], true, OnOk, OnErr};
ghost use Rattle.tm_desk.specs.Held.{file_or_empty};
ghost use Rattle.tm_desk.specs.Causes.{OthersStay};

use crate::files::{File, find, put, whole};
use crate::{Desk, DeskError};
use std::alloc::Global;
use tm_base::{Bytes, NoMemory};

/// Files in memory that never fail, with an empty file under every name that wasn't given.
#[derive(Drop)]
pub struct CalmDesk {
    alloc: Global,
    files: Vec<File>,
}

impl CalmDesk {
    ghost use Rattle.tm_desk.specs.Seen.{calm_files};

    /// A desk on which every file is empty.
    pub fn new(alloc: Global) -> Self
        ensures { (name : List ℕ) → calm_files result name ≡ Some [] }
    {
        CalmDesk {
            alloc,
            files: Vec::new(alloc),
        }
    }

    /// Puts a file there, or changes nothing.
    pub fn put_file(&mut self, name: &str, bytes: &[u8]) -> Result<(), NoMemory>
        ensures ok { OnOk result (calm_files self.new name.now ≡ Some bytes.now) }
        ensures others { OthersStay (calm_files self.old) (calm_files self.new) name.now }
        ensures err { OnErr result (calm_files self.new ≡ calm_files self.old) }
    {
        put(self.alloc, &mut self.files, name.as_bytes(), bytes)
    }
}

impl Desk for CalmDesk {
    ghost tells = { true };

    ghost held = { λ d. file_or_empty d.files.items };

    ghost faults = { λ _. 0 };

    fn read(&mut self, name: &str, max: u64) -> Result<Bytes, DeskError> {
        match find(&self.files, name.as_bytes()) {
            Some(file) => whole(self.alloc, file, max),
            None => Ok(Bytes::new(self.alloc)),
        }
    }

    fn write(&mut self, name: &str, bytes: &[u8]) -> Result<(), DeskError> {
        put(self.alloc, &mut self.files, name.as_bytes(), bytes).map_err(|_| DeskError::NoMemory)
    }
}
