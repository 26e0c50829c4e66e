// Little-endian numbers in a list of bytes.
ghost use Rattle.std.specs.Prelude.{◌≡◌, ◌+◌, ◌<◌, ◌≤◌, ◌^◌, ◌*◌, ◌/◌, ◌%◌, ℕ, slice_index, length};
ghost use Rattle.tm_ram.specs.Region.{number_at, with_number};
ghost use Rattle.tm_table.specs.Row.{IsWidth};

// A bigger number is two halves, so that each step is one that the machine has: the compiler joins them into one load.
#[tactic(auto, unfolding(crate::specs::Region::number_at))]
fn two(s: &[u8], at: usize) -> u64
    requires { at + 2 ≤ length s.now }
    ensures value { result ≡ number_at s.now at 2 }
    ensures small { result < 2 ^ 16 }
{
    s[at] as u64 + s[at + 1] as u64 * 0x100
}

#[tactic(auto, unfolding(crate::specs::Region::number_at))]
fn four(s: &[u8], at: usize) -> u64
    requires { at + 4 ≤ length s.now }
    ensures value { result ≡ number_at s.now at 4 }
    ensures small { result < 2 ^ 32 }
{
    two(s, at) + two(s, at + 2) * 0x1_0000
}

#[tactic(auto, unfolding(crate::specs::Region::number_at))]
fn eight(s: &[u8], at: usize) -> u64
    requires { at + 8 ≤ length s.now }
    ensures { result ≡ number_at s.now at 8 }
{
    four(s, at) + four(s, at + 4) * 0x1_0000_0000
}

#[tactic(auto, unfolding(crate::specs::Region::with_number))]
fn put_one(s: &mut [u8], at: usize, value: u64)
    requires { at + 1 ≤ length s.old }
    ensures { s.new ≡ with_number s.old at 1 value }
{
    s[at] = (value % 0x100) as u8;
}

#[tactic(auto, unfolding(crate::specs::Region::with_number))]
fn put_two(s: &mut [u8], at: usize, value: u64)
    requires { at + 2 ≤ length s.old }
    ensures { s.new ≡ with_number s.old at 2 value }
{
    put_one(s, at, value);
    put_one(s, at + 1, value / 0x100);
}

#[tactic(auto, unfolding(crate::specs::Region::with_number))]
fn put_four(s: &mut [u8], at: usize, value: u64)
    requires { at + 4 ≤ length s.old }
    ensures { s.new ≡ with_number s.old at 4 value }
{
    put_two(s, at, value);
    put_two(s, at + 2, value / 0x1_0000);
}

#[tactic(auto, unfolding(crate::specs::Region::with_number))]
fn put_eight(s: &mut [u8], at: usize, value: u64)
    requires { at + 8 ≤ length s.old }
    ensures { s.new ≡ with_number s.old at 8 value }
{
    put_four(s, at, value);
    put_four(s, at + 4, value / 0x1_0000_0000);
}

#[tactic(auto, unfolding(crate::specs::Region::number_at))]
fn number_of(s: &[u8], at: usize, width: u8) -> u64
    requires wide { IsWidth width }
    requires room { at + width ≤ length s.now }
    ensures value { result ≡ number_at s.now at width }
    ensures small { result < 2 ^ (8 * width) }
{
    match width {
        1 => s[at] as u64,
        2 => two(s, at),
        4 => four(s, at),
        _ => eight(s, at),
    }
}

/// The number of `width` bytes at a place, and what each of its bytes is.
pub fn number(s: &[u8], at: usize, width: u8) -> u64
    requires wide { IsWidth width }
    requires room { at + width ≤ length s.now }
    ensures value { result ≡ number_at s.now at width }
    ensures small { result < 2 ^ (8 * width) }
    ensures bytes { (i : ℕ) → i < width → result / 256 ^ i % 256 ≡ slice_index s.now (at + i) }
{
    number_of(s, at, width)
}

/// Puts the low `width` bytes of a number at a place.
pub fn put(s: &mut [u8], at: usize, width: u8, value: u64)
    requires wide { IsWidth width }
    requires room { at + width ≤ length s.old }
    ensures { s.new ≡ with_number s.old at width value }
{
    match width {
        1 => put_one(s, at, value),
        2 => put_two(s, at, value),
        4 => put_four(s, at, value),
        _ => put_eight(s, at, value),
    }
}
