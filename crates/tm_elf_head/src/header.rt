// The file header.
ghost use Rattle.std.specs.Prelude.{◌≡◌, ◌≤◌, length, IfNone};
ghost use Rattle.tm_elf_head.specs.HeaderFaults.{bad_field as field_at_fault, header_fault as fault};

use crate::difference::differ;
use crate::numbers::{half_at, long_at, part_at, word_at};
use tm_refusals::ElfFault;

// The least length of a file with its headers.
const LEAST: usize = 744;

/// The first fault of the file header.
#[tactic(auto, unfolding(crate::specs::HeaderFaults::header_fault, crate::specs::HeaderFaults::magic))]
pub fn header_fault(bytes: &[u8]) -> Option<ElfFault>
    ensures value { result ≡ fault bytes.now }
    ensures long { IfNone result (744 ≤ length bytes.now) }
{
    if bytes.len() < 64 {
        return Some(ElfFault::Short {
            have: bytes.len() as u64,
        });
    }
    if differ(part_at(bytes, 0, 7), b"\x7fELF\x02\x01\x01") {
        return Some(ElfFault::BadMagic);
    }
    let machine = half_at(bytes, 18);
    if machine != 243 {
        return Some(ElfFault::NotRiscv { machine });
    }
    let kind = half_at(bytes, 16);
    if kind != 2 {
        return Some(ElfFault::NotExec { kind });
    }
    match bad_field(bytes) {
        Some(field) => Some(ElfFault::BadHeader { field }),
        None => None,
    }
}

// The least field at fault, by its offset.
#[tactic(auto, unfolding(crate::specs::HeaderFaults::bad_field))]
fn bad_field(bytes: &[u8]) -> Option<u8>
    requires { 64 ≤ length bytes.now }
    ensures value { result ≡ field_at_fault bytes.now }
    ensures long { IfNone result (744 ≤ length bytes.now) }
{
    if differ(part_at(bytes, 7, 9), &[0; 9]) {
        return Some(7);
    }
    if word_at(bytes, 20) != 1 {
        return Some(20);
    }
    if long_at(bytes, 24) != 0x8000_0000 {
        return Some(24);
    }
    if long_at(bytes, 32) != 64 {
        return Some(32);
    }
    if bytes.len() < LEAST {
        return Some(40);
    }
    if long_at(bytes, 40) != bytes.len() as u64 - 512 {
        return Some(40);
    }
    if word_at(bytes, 48) != 0 {
        return Some(48);
    }
    if half_at(bytes, 52) != 64 {
        return Some(52);
    }
    if half_at(bytes, 54) != 56 {
        return Some(54);
    }
    if half_at(bytes, 56) != 3 {
        return Some(56);
    }
    if half_at(bytes, 58) != 64 {
        return Some(58);
    }
    if half_at(bytes, 60) != 8 {
        return Some(60);
    }
    if half_at(bytes, 62) != 7 {
        return Some(62);
    }
    None
}
