// What the lines of a file of cases have said so far.
use crate::book::Book;
use crate::words::calls;
use std::alloc::Global;
use tm_base::NoMemory;
use tm_desk::MemDesk;

/// The texts by name, the files that the next call finds on its desk, and whether some line was no case.
#[derive(Drop)]
pub struct State {
    pub alloc: Global,
    pub texts: Book,
    pub held: Book,
    pub failed: bool,
}

impl State {
    pub fn new(alloc: Global) -> Self {
        State {
            alloc,
            texts: Book::new(alloc),
            held: Book::new(alloc),
            failed: false,
        }
    }

    /// A desk that holds the files, and of which the calls of the option `desk=` fail.
    pub fn desk(&self, options: &str) -> Result<MemDesk, NoMemory> {
        let mut desk = MemDesk::new(self.alloc, calls(self.alloc, options, "desk")?);
        for file in self.held.entries() {
            desk.put_file(file.name.as_str(), file.text.as_slice())?;
        }
        Ok(desk)
    }
}
