// Streams that are made up.
use std::alloc::Global;
use std::cell::{Cell, RefCell};
use std::fmt::Display;
use std::io::{self, ErrorKind, Print};

/// A stream that takes nothing, or fails.
#[derive(Drop)]
pub struct Refusing {
    pub answer: Option<ErrorKind>,
}

impl Print for Refusing {
    fn print<D: Display + Drop>(&self, _value: D) -> io::Result<()> {
        Ok(())
    }

    fn println<D: Display + Drop>(&self, _value: D) -> io::Result<()> {
        Ok(())
    }

    fn write_all(&self, _bytes: &[u8]) -> io::Result<()> {
        Ok(())
    }

    fn write_some(&self, _bytes: &[u8]) -> io::Result<usize> {
        match self.answer {
            Some(kind) => Err(kind.into()),
            None => Ok(0),
        }
    }
}

/// A stream that takes so many bytes at a time and keeps them, and of which every other write is interrupted.
#[derive(Drop)]
pub struct Few {
    most: usize,
    interrupts: Cell<bool>,
    taken: RefCell<Vec<u8>>,
}

impl Few {
    /// A stream that takes `most` bytes at a time. It has taken nothing, and is interrupted at first.
    pub fn new(alloc: Global, most: usize) -> Few {
        Few {
            most,
            interrupts: Cell::new(true),
            taken: RefCell::new(Vec::new(alloc)),
        }
    }

    /// The bytes that it took.
    pub fn into_taken(self) -> Vec<u8> {
        let Few {
            most: _,
            interrupts: _,
            taken,
        } = self;
        taken.into_inner()
    }
}

impl Print for Few {
    fn print<D: Display + Drop>(&self, _value: D) -> io::Result<()> {
        Ok(())
    }

    fn println<D: Display + Drop>(&self, _value: D) -> io::Result<()> {
        Ok(())
    }

    fn write_all(&self, _bytes: &[u8]) -> io::Result<()> {
        Ok(())
    }

    fn write_some(&self, bytes: &[u8]) -> io::Result<usize> {
        let interrupts = self.interrupts.get();
        self.interrupts.set(!interrupts);
        if interrupts {
            return Err(ErrorKind::Interrupted.into());
        }
        let count = bytes.len().min(self.most);
        let Ok(mut taken) = self.taken.try_borrow_mut() else {
            return Err(ErrorKind::WouldBlock.into());
        };
        taken.extend_from_slice(&bytes[..count])?;
        Ok(count)
    }
}
