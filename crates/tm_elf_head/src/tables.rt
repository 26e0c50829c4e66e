// The symbol table and its strings.
ghost use Rattle.std.specs.Prelude.{◌≡◌, ◌≤◌, length};
ghost use Rattle.tm_elf_head.specs.PartFaults.{has_symbols as with_symbols};

use crate::spans::{headers_at, section};
use tm_elf_write::MOST_SYMBOLS;

/// Whether sections 5 and 6 are the ranges of a symbol table and of its strings.
#[tactic(auto, unfolding(crate::specs::PartFaults::has_symbols))]
pub fn has_symbols(bytes: &[u8]) -> bool
    requires { 744 ≤ length bytes.now }
    ensures { result ≡ with_symbols bytes.now }
{
    let headers = headers_at(bytes) as u64;
    let span = section(bytes, 5);
    if !span.ends_by(headers) {
        return false;
    }
    if !section(bytes, 6).ends_by(headers) {
        return false;
    }
    if span.len == 0 {
        return false;
    }
    if span.len > 24 * (1 + u64::from(MOST_SYMBOLS)) {
        return false;
    }
    span.len % 24 == 0
}
