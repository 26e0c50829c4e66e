// Files in memory, at most one of a name.
ghost use Rattle.std.specs.Prelude.{◌≡◌, ◌≤◌, ◌<◌, ℕ, None, take, length, OnOk, OnErr, IfOk, MatchOption};
ghost use Rattle.tm_desk.specs.Causes.{OthersStay};
ghost use Rattle.tm_desk.specs.Held.{file_of, file_or_empty, IsPlace};

use crate::DeskError;
use std::alloc::Global;
use tm_base::{Bytes, NoMemory};

/// A file.
#[derive(Drop)]
pub struct File {
    name: Bytes,
    bytes: Bytes,
}

/// The place of the file of this name, or the length where there is none.
fn place_of(files: &[File], name: &[u8]) -> usize
    ensures { IsPlace files.now name.now result }
{
    let mut place = 0usize;
    while place < files.len() && files[place].name.as_slice() != name {
        place += 1;
    }
    place
}

/// The bytes of the file of this name.
pub fn find<'a>(files: &'a [File], name: &[u8]) -> Option<&'a Bytes>
    ensures { MatchOption result
        (file_of files.now name.now ≡ None)
        (λ bytes. file_of files.now name.now ≡ Some bytes.now) }
{
    let place = place_of(files, name);
    if place < files.len() {
        Some(&files[place].bytes)
    } else {
        None
    }
}

/// Puts a file in the place of the one of its name, or changes nothing.
pub fn put(alloc: Global, files: &mut Vec<File>, name: &[u8], bytes: &[u8]) -> Result<(), NoMemory>
    ensures ok { OnOk result (file_of files.new.items name.now ≡ Some bytes.now) }
    ensures others { OthersStay (file_of files.old.items) (file_of files.new.items) name.now }
    ensures others_or_empty { OthersStay (file_or_empty files.old.items) (file_or_empty files.new.items) name.now }
    ensures err { OnErr result (files.new.items ≡ files.old.items) }
{
    let file = File {
        name: Bytes::copy_of(alloc, name)?,
        bytes: Bytes::copy_of(alloc, bytes)?,
    };
    let place = place_of(files, name);
    if place < files.len() {
        files[place] = file;
        return Ok(());
    }
    if files.push(file).is_err() {
        return Err(NoMemory);
    }
    Ok(())
}

/// A copy of the whole file, where it is no longer than `max`.
pub fn whole(alloc: Global, file: &Bytes, max: u64) -> Result<Bytes, DeskError>
    ensures ok { IfOk result (λ b. b ≡ file.now) }
    ensures within { IfOk result (λ b. length b ≤ max) }
    ensures failed { result ≡ Err DeskError.Failed → ⊥ }
    ensures long { (limit : ℕ) → result ≡ Err (DeskError.TooLong limit) →
        (limit ≡ max) × (max < length file.now) }
{
    if file.as_slice().len() as u64 > max {
        return Err(DeskError::TooLong { max });
    }
    Bytes::copy_of(alloc, file.as_slice()).map_err(|_| DeskError::NoMemory)
}
