// Names in the strings.
ghost use Rattle.std.specs.Prelude.{◌≡◌, ◌≤◌, ◌==◌, ◌&&◌, length, nat_lt, not, IfSome};
ghost use Rattle.std.specs.List.{list_all, prefix_len};
ghost use Rattle.tm_elf.specs.SymbolTable.{is_name as is_symbol_name, name_len as len_of_name};

use tm_elf_head::part_at;
use tm_elf_write::SYMBOL_NAME_BYTES;

/// The length of the name with which bytes begin, if a zero byte ends it.
#[tactic(auto, unfolding(crate::specs::SymbolTable::name_len))]
pub fn name_len(bytes: &[u8]) -> Option<usize>
    ensures value { result ≡ len_of_name bytes.now }
    ensures within { IfSome result (λ n. n ≤ length bytes.now) }
{
    let n = front_len(bytes);
    if n >= bytes.len() {
        return None;
    }
    if is_name(part_at(bytes, 0, n)) {
        return Some(n);
    }
    None
}

// How many bytes stand before the first zero byte.
fn front_len(bytes: &[u8]) -> usize
    ensures value { result ≡ prefix_len (λ b. not (b == 0)) bytes.now }
    ensures within { result ≤ length bytes.now }
{
    bytes.iter().take_while(|byte| **byte != 0).count()
}

// Whether bytes are a name of a symbol.
#[tactic(auto, unfolding(crate::specs::SymbolTable::is_name))]
fn is_name(bytes: &[u8]) -> bool
    ensures { result ≡ is_symbol_name bytes.now }
{
    if bytes.is_empty() {
        return false;
    }
    if bytes.len() > SYMBOL_NAME_BYTES {
        return false;
    }
    are_ascii(bytes)
}

fn are_ascii(bytes: &[u8]) -> bool
    ensures { result ≡ list_all (λ b. nat_lt 0 b && nat_lt b 128) bytes.now }
{
    bytes.iter().all(|byte| is_ascii(*byte))
}

// Whether a byte is ASCII and not zero.
fn is_ascii(byte: u8) -> bool
    ensures { result ≡ (nat_lt 0 byte && nat_lt byte 128) }
{
    if byte == 0 {
        return false;
    }
    byte < 128
}
