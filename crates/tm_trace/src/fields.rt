// The fields of a line, read one behind the other.
ghost use Rattle.std.specs.Prelude.{◌≡◌, ◌≤◌, ◌<◌, ◌+◌, ◌^◌, true, IfSome, length, codes};
ghost use Rattle.std.specs.List.{list_all, prefix_len};
ghost use Rattle.std.specs.Char.{digit_value};
ghost use Rattle.tm_trace.specs.Fields as fields;

use tm_base::read_number;

/// The least number that has more digits than a decimal number of a trace may have, which are nine.
pub const DECIMAL_END: u64 = 1_000_000_000;

/// These bytes, where they stand next.
#[tactic(auto, unfolding(crate::specs::Fields::word_field))]
pub fn word_at<'a>(bytes: &'a [u8], word: &[u8]) -> Option<&'a [u8]>
    ensures is { fields.IsPassed (fields.word_field word.now bytes.now) result }
    ensures less { IfSome result (λ r. length word.now + length r.now ≤ length bytes.now) }
{
    if !bytes.starts_with(word) {
        return None;
    }
    Some(&bytes[word.len()..])
}

fn is_decimal(byte: u8) -> bool
    ensures { result ≡ fields.is_decimal byte }
{
    if byte < b'0' {
        return false;
    }
    byte <= b'9'
}

// How many decimal digits stand next.
fn decimal_len(bytes: &[u8]) -> usize
    ensures len { result ≡ prefix_len fields.is_decimal bytes.now }
    ensures within { result ≤ length bytes.now }
{
    bytes.iter().take_while(|byte| is_decimal(**byte)).count()
}

// Whether digits are those of a number.
fn are_plain(digits: &[u8]) -> bool
    ensures { result ≡ fields.are_plain digits.now }
{
    match digits {
        [] => false,
        [_] => true,
        [first, ..] => *first != b'0',
    }
}

/// The decimal number that stands next.
#[tactic(auto, unfolding(crate::specs::Fields::decimal_field))]
pub fn decimal_at(bytes: &[u8]) -> Option<(u64, &[u8])>
    ensures is { fields.IsField (fields.decimal_field bytes.now) result }
    ensures low { IfSome result (λ r. r.0 < DECIMAL_END) }
    ensures less { IfSome result (λ r. 1 + length r.1.now ≤ length bytes.now) }
{
    let len = decimal_len(bytes);
    if !are_plain(&bytes[..len]) {
        return None;
    }
    match read_number(&bytes[..len]) {
        Ok(number) if number < DECIMAL_END => Some((number, &bytes[len..])),
        Ok(_) | Err(_) => None,
    }
}

fn is_hex(byte: u8) -> bool
    ensures { result ≡ fields.is_hex byte }
{
    if is_decimal(byte) {
        return true;
    }
    if byte < b'a' {
        return false;
    }
    byte <= b'f'
}

fn are_hex(digits: &[u8]) -> bool
    ensures { result ≡ list_all fields.is_hex digits.now }
{
    digits.iter().all(|byte| is_hex(*byte))
}

// What a hexadecimal digit stands for.
fn nibble(byte: u8) -> u64
    requires { fields.is_hex byte ≡ true }
    ensures value { result ≡ digit_value byte }
    ensures low { result < 16 }
{
    if byte <= b'9' {
        return u64::from(byte - b'0');
    }
    u64::from(byte - b'a') + 10
}

// What hexadecimal digits stand for.
fn hex_value(digits: &[u8]) -> u64
    requires hex { list_all fields.is_hex digits.now ≡ true }
    requires few { length digits.now ≤ 16 }
    ensures value { result ≡ fields.hex_from 0 digits.now }
    ensures low { result < 16 ^ length digits.now }
{
    let mut value: u64 = 0;
    let mut left = digits;
    while let [digit, rest @ ..] = left {
        value = value * 16 + nibble(*digit);
        left = rest;
    }
    value
}

/// The hexadecimal number of so many digits that stands next.
#[tactic(auto, unfolding(crate::specs::Fields::hex_field))]
pub fn hex_at(bytes: &[u8], digits: usize) -> Option<(u64, &[u8])>
    requires { digits ≤ 16 }
    ensures is { fields.IsField (fields.hex_field digits bytes.now) result }
    ensures low { IfSome result (λ r. r.0 < 16 ^ digits) }
    ensures less { IfSome result (λ r. digits + length r.1.now ≤ length bytes.now) }
{
    if bytes.len() < digits {
        return None;
    }
    let text = &bytes[..digits];
    if !are_hex(text) {
        return None;
    }
    Some((hex_value(text), &bytes[digits..]))
}

/// The hexadecimal number of so many digits behind these bytes.
pub fn hex_behind<'a>(bytes: &'a [u8], word: &[u8], digits: usize) -> Option<(u64, &'a [u8])>
    requires { digits ≤ 16 }
    ensures is { fields.IsField (fields.hex_behind word.now digits bytes.now) result }
    ensures low { IfSome result (λ r. r.0 < 16 ^ digits) }
    ensures less { IfSome result (λ r. length word.now + digits + length r.1.now ≤ length bytes.now) }
{
    hex_at(word_at(bytes, word)?, digits)
}

/// The decimal number behind these bytes.
pub fn decimal_behind<'a>(bytes: &'a [u8], word: &[u8]) -> Option<(u64, &'a [u8])>
    ensures is { fields.IsField (fields.decimal_behind word.now bytes.now) result }
    ensures low { IfSome result (λ r. r.0 < DECIMAL_END) }
    ensures less { IfSome result (λ r. length word.now + 1 + length r.1.now ≤ length bytes.now) }
{
    decimal_at(word_at(bytes, word)?)
}
