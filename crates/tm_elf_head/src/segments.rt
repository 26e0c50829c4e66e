// The program headers whose bytes are read.
ghost use Rattle.std.specs.Prelude.{◌≡◌, ◌≤◌, length};
ghost use Rattle.tm_elf_head.specs.PartFaults.{bad_segment as fault, is_text as text, is_tables as tables};

use crate::spans::{headers_at, segment};
use tm_base::{TABLES_BYTES, TEXT_WORDS};

/// The least program header at fault.
#[tactic(auto, unfolding(crate::specs::PartFaults::bad_segment))]
pub fn bad_segment(bytes: &[u8]) -> Option<u8>
    requires { 744 ≤ length bytes.now }
    ensures { result ≡ fault bytes.now }
{
    if !is_text(bytes) {
        return Some(0);
    }
    if !is_tables(bytes) {
        return Some(1);
    }
    None
}

// Whether the first gives a text of a word at least, and no more than a text may have.
#[tactic(auto, unfolding(crate::specs::PartFaults::is_text))]
fn is_text(bytes: &[u8]) -> bool
    requires { 744 ≤ length bytes.now }
    ensures { result ≡ text bytes.now }
{
    let span = segment(bytes, 0);
    if !span.ends_by(headers_at(bytes) as u64) {
        return false;
    }
    if span.len > 4 * u64::from(TEXT_WORDS) {
        return false;
    }
    if span.len == 0 {
        return false;
    }
    span.len % 4 == 0
}

// Whether the second gives tables of at most 4,194,304 bytes.
#[tactic(auto, unfolding(crate::specs::PartFaults::is_tables))]
fn is_tables(bytes: &[u8]) -> bool
    requires { 744 ≤ length bytes.now }
    ensures { result ≡ tables bytes.now }
{
    let span = segment(bytes, 1);
    if !span.ends_by(headers_at(bytes) as u64) {
        return false;
    }
    span.len <= u64::from(TABLES_BYTES)
}
