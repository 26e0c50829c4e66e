use thiserror::Error;

/// Why code has no words.
#[derive(Clone, Copy, Debug, PartialEq, Eq, Error)]
pub enum CodeFault {
    /// The branch or jump at word `from` can't reach word `to`.
    #[error("the word at {from} can't reach the word at {to}")]
    FarBranch { from: u64, to: u64 },
    /// There was no memory.
    #[error("out of memory")]
    NoMemory,
}
