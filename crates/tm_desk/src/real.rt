// The real files and streams. They tell nothing of content, and are trusted.
ghost use Rattle.std.specs.Prelude.{◌≡◌, ◌↔◌, ◌≤◌, ◌<◌, ℕ, [], None, false, length, IfOk, IfSome, vec_len};
ghost use Rattle.std.specs.IoError.{error_kind};
ghost use Rattle.tm_desk.specs.Causes.{WriteFault, PutFault};

use crate::whole::write_whole;
use crate::{Desk, DeskError, Sink, SinkError};
use std::alloc::Global;
use std::fs;
use std::io::{self, ErrorKind, Print, Read};
use std::rt::Files;
use tm_base::Bytes;

/// Files by path. A missing file counts as a fault, as does each other error but want of memory.
#[derive(Drop)]
pub struct RealDesk<R: Files> {
    alloc: Global,
    files: R,
    faults: u64,
}

impl<R: Files> RealDesk<R> {
    /// A desk over the file system of a runtime, with no fault yet.
    pub fn new(alloc: Global, files: R) -> Self
        ensures { result.faults ≡ 0 }
    {
        RealDesk {
            alloc,
            files,
            faults: 0,
        }
    }

    /// How often the outside has failed.
    pub fn faults(&self) -> u64
        ensures { result ≡ self.now.faults }
    {
        self.faults
    }

    /// Counts an error as a fault, unless it is want of memory.
    fn counted(&mut self, error: io::Error) -> DeskError
        ensures memory { (result ≡ DeskError.NoMemory) ↔ (error_kind error ≡ ErrorKind.OutOfMemory) }
        ensures cause { WriteFault result self.old.faults self.new.faults }
        ensures later { self.old.faults ≤ self.new.faults }
    {
        if error.kind() == ErrorKind::OutOfMemory {
            return DeskError::NoMemory;
        }
        self.faults = self.faults.saturating_add(1);
        DeskError::Failed
    }
}

/// Reads a file to its end, or one byte more than `max` of a longer one, for which it answers `None`.
fn read_up_to<R: Files>(
    alloc: Global,
    files: &R,
    name: &str,
    max: u64,
) -> io::Result<Option<Vec<u8>>>
    ensures { IfOk result (λ found. IfSome found (λ bytes. vec_len bytes ≤ max)) }
{
    let mut bytes = Vec::new(alloc);
    fs::open(files, name)?
        .take(max.saturating_add(1))
        .read_to_end(&mut bytes)?;
    if bytes.len() as u64 > max {
        return Ok(None);
    }
    Ok(Some(bytes))
}

impl<R: Files> Desk for RealDesk<R> {
    ghost tells = { false };

    ghost held = { λ _ _. None };

    ghost faults = { λ d. d.faults };

    fn read(&mut self, name: &str, max: u64) -> Result<Bytes, DeskError> {
        match read_up_to(self.alloc, &self.files, name, max) {
            Ok(Some(bytes)) => Ok(Bytes::from_vec(bytes)),
            Ok(None) => Err(DeskError::TooLong { max }),
            Err(error) => Err(self.counted(error)),
        }
    }

    fn write(&mut self, name: &str, bytes: &[u8]) -> Result<(), DeskError> {
        match write_whole(self.alloc, &self.files, name, bytes) {
            Ok(()) => Ok(()),
            Err(error) => Err(self.counted(error)),
        }
    }
}

/// Standard output or standard error. Each error but want of memory counts as a fault.
#[derive(Drop)]
pub struct RealSink<P: Print> {
    stream: P,
    faults: u64,
}

impl<P: Print> RealSink<P> {
    /// A sink over a stream, with no fault yet.
    pub fn new(stream: P) -> Self
        ensures { result.faults ≡ 0 }
    {
        RealSink { stream, faults: 0 }
    }

    /// How often the outside has failed.
    pub fn faults(&self) -> u64
        ensures { result ≡ self.now.faults }
    {
        self.faults
    }

    /// Counts an error as a fault, unless it is want of memory.
    fn counted(&mut self, error: io::Error) -> SinkError
        ensures memory { (result ≡ SinkError.NoMemory) ↔ (error_kind error ≡ ErrorKind.OutOfMemory) }
        ensures cause { PutFault result self.old.faults self.new.faults }
        ensures later { self.old.faults ≤ self.new.faults }
    {
        if error.kind() == ErrorKind::OutOfMemory {
            return SinkError::NoMemory;
        }
        self.faults = self.faults.saturating_add(1);
        SinkError::Failed
    }
}

/// Writes some bytes, at least one where there is one. A write that a signal interrupts has written
/// none, and is made again.
fn write_some<P: Print>(stream: &P, piece: &[u8]) -> io::Result<usize>
    ensures within { IfOk result (λ n. n ≤ length piece.now) }
    ensures some { IfOk result (λ n. 0 < length piece.now → 0 < n) }
{
    for _ in 0..u64::MAX {
        match stream.write_some(piece) {
            Ok(0) if !piece.is_empty() => return Err(ErrorKind::WriteZero.into()),
            Err(error) if error.kind() == ErrorKind::Interrupted => {}
            answer => return answer,
        }
    }
    Err(ErrorKind::Interrupted.into())
}

impl<P: Print> Sink for RealSink<P> {
    ghost tells = { false };

    ghost taken = { λ _. [] };

    ghost faults = { λ s. s.faults };

    fn put(&mut self, piece: &[u8]) -> Result<u64, SinkError> {
        match write_some(&self.stream, piece) {
            Ok(count) => Ok(count as u64),
            Err(error) => Err(self.counted(error)),
        }
    }
}
