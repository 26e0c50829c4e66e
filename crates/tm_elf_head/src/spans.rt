// The ranges to which the headers point.
ghost use Rattle.std.specs.Prelude.{◌≡◌, ◌≤◌, ◌+◌, length, take, drop};
ghost use Rattle.tm_elf_head.specs.Spans.{segment, section, ends_by};

use crate::numbers::{long_at, part_at};

/// A range of the file, in bytes.
#[derive(Clone, Copy, Debug, PartialEq, Eq)]
pub struct Span {
    pub at: u64,
    pub len: u64,
}

impl Span {
    /// Whether the range ends by a place.
    #[tactic(auto, unfolding(crate::specs::Spans::ends_by))]
    pub fn ends_by(self, limit: u64) -> bool
        ensures { result ≡ ends_by limit self }
    {
        if self.len > limit {
            return false;
        }
        self.at <= limit - self.len
    }

    /// The bytes of the range, as far as the file has them.
    pub fn of(self, bytes: &[u8]) -> &[u8]
        ensures { result.now ≡ take self.len (drop self.at bytes.now) }
    {
        part_at(bytes, self.at as usize, self.len as usize)
    }
}

/// Where the section headers stand: the last 512 bytes.
pub fn headers_at(bytes: &[u8]) -> usize
    requires { 744 ≤ length bytes.now }
    ensures { result + 512 ≡ length bytes.now }
{
    bytes.len() - 512
}

/// The range of the program header 0, 1 or 2.
#[tactic(auto, unfolding(crate::specs::Spans::segment))]
pub fn segment(bytes: &[u8], index: usize) -> Span
    requires within { index ≤ 2 }
    requires long { 744 ≤ length bytes.now }
    ensures { result ≡ segment bytes.now index }
{
    Span {
        at: long_at(bytes, 56 * index + 72),
        len: long_at(bytes, 56 * index + 96),
    }
}

/// The range of the section header 0 to 7.
#[tactic(auto, unfolding(crate::specs::Spans::section))]
pub fn section(bytes: &[u8], index: usize) -> Span
    requires within { index ≤ 7 }
    requires long { 744 ≤ length bytes.now }
    ensures { result ≡ section bytes.now index }
{
    let headers = headers_at(bytes);
    Span {
        at: long_at(bytes, headers + (64 * index + 24)),
        len: long_at(bytes, headers + (64 * index + 32)),
    }
}
