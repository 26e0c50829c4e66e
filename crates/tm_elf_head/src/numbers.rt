// Numbers at places of a file, the lowest byte first.
ghost use Rattle.std.specs.Prelude.{◌≡◌, ◌+◌, ◌≤◌, length, take, drop};
ghost use Rattle.tm_elf_head.specs.Numbers.{half_at as half, word_at as word, long_at as long};

/// So many bytes from a place on, as far as there are.
pub fn part_at(bytes: &[u8], at: usize, len: usize) -> &[u8]
    ensures { result.now ≡ take len (drop at bytes.now) }
{
    front(rest(bytes, at), len)
}

fn rest(bytes: &[u8], at: usize) -> &[u8]
    ensures { result.now ≡ drop at bytes.now }
{
    if at <= bytes.len() { &bytes[at..] } else { &[] }
}

fn front(bytes: &[u8], len: usize) -> &[u8]
    ensures { result.now ≡ take len bytes.now }
{
    if len <= bytes.len() {
        &bytes[..len]
    } else {
        bytes
    }
}

/// The 16-bit number at a place.
#[tactic(auto, unfolding(crate::specs::Numbers::half_at))]
pub fn half_at(bytes: &[u8], at: usize) -> u16
    requires { at + 2 ≤ length bytes.now }
    ensures { result ≡ half bytes.now at }
{
    u16::from_le_bytes([bytes[at], bytes[at + 1]])
}

/// The 32-bit number at a place.
#[tactic(auto, unfolding(crate::specs::Numbers::word_at))]
pub fn word_at(bytes: &[u8], at: usize) -> u32
    requires { at + 4 ≤ length bytes.now }
    ensures { result ≡ word bytes.now at }
{
    u32::from_le_bytes([bytes[at], bytes[at + 1], bytes[at + 2], bytes[at + 3]])
}

/// The 64-bit number at a place.
#[tactic(auto, unfolding(crate::specs::Numbers::long_at))]
pub fn long_at(bytes: &[u8], at: usize) -> u64
    requires { at + 8 ≤ length bytes.now }
    ensures { result ≡ long bytes.now at }
{
    u64::from_le_bytes([
        bytes[at],
        bytes[at + 1],
        bytes[at + 2],
        bytes[at + 3],
        bytes[at + 4],
        bytes[at + 5],
        bytes[at + 6],
        bytes[at + 7],
    ])
}
