ghost use Rattle.std.specs.Prelude.{◌≡◌, ◌++◌, ◌≤◌, ◌<◌, ◌+◌, ◌^◌, ◌⊎◌, OnOk, OnErr, Ok, length, SomeIff, EachIndex};
ghost use Rattle.std.specs.Prelude.{slice_index, true, position, not};
ghost use Rattle.std.specs.Fmt.{decimal};
ghost use Rattle.std.specs.Char.{is_digit, digit_char};
ghost use Rattle.tm_base.specs.Numbers.{number_of, digits_reading, place_value, hex_text, pos_text};

use crate::{Bytes, NoMemory, Pos};

/// Why a text is no number.
#[derive(Clone, Copy, Debug, PartialEq, Eq)]
pub enum NumberFault {
    Empty,
    BadDigit { place: u64 },
    TooLarge,
}

/// Reads decimal digits, or `0x` and hexadecimal digits of either case.
pub fn read_number(text: &[u8]) -> Result<u64, NumberFault>
    ensures { result ≡ number_of text.now }
{
    if text.starts_with(b"0x") {
        read_digits(&text[2..], 2, 16)
    } else {
        read_digits(text, 0, 10)
    }
}

// Reads digits that begin at a place of a text.
fn read_digits(digits: &[u8], from: u64, base: u32) -> Result<u64, NumberFault>
    requires base_low { 2 ≤ base }
    requires base_high { base ≤ 16 }
    requires from { from ≤ 2 }
    ensures { result ≡ digits_reading from base digits.now }
{
    if digits.is_empty() {
        return Err(NumberFault::Empty);
    }
    if let Some(place) = first_bad(digits, base) {
        return Err(NumberFault::BadDigit {
            place: from + place as u64,
        });
    }
    match digits_value(digits, base) {
        Some(value) => Ok(value),
        None => Err(NumberFault::TooLarge),
    }
}

// Where the first byte is that is no digit.
fn first_bad(digits: &[u8], base: u32) -> Option<usize>
    requires base_low { 2 ≤ base }
    requires base_high { base ≤ 16 }
    ensures { result ≡ position (λ b. not (is_digit b base)) digits.now }
{
    digits
        .iter()
        .position(|byte| !char::from(*byte).is_digit(base))
}

// What digits stand for, where it is below 2^64.
fn digits_value(digits: &[u8], base: u32) -> Option<u64>
    requires base_low { 2 ≤ base }
    requires base_high { base ≤ 16 }
    requires digits { EachIndex digits.now (λ k. is_digit (slice_index digits.now k) base ≡ true) }
    ensures { SomeIff result (place_value base digits.now < 2 ^ 64) (place_value base digits.now) }
{
    let mut value: u64 = 0;
    for byte in digits {
        let digit = char::from(*byte).to_digit(base).unwrap_or(0);
        let next = u128::from(value) * u128::from(base) + u128::from(digit);
        if next > u128::from(u64::MAX) {
            return None;
        }
        value = next as u64;
    }
    Some(value)
}

/// Appends a number's decimal digits without leading zeros, or changes nothing.
pub fn push_decimal(out: &mut Bytes, value: u64) -> Result<(), NoMemory>
    ensures ok { OnOk result (out.new ≡ out.old ++ decimal value) }
    ensures err { OnErr result (out.new ≡ out.old) }
    ensures reads_back { number_of (decimal value) ≡ Ok value }
{
    let mut digits = [0u8; 20];
    let mut at = digits.len();
    let mut left = value;
    loop {
        at -= 1;
        digits[at] = b'0' + (left % 10) as u8;
        left /= 10;
        if left == 0 {
            break;
        }
    }
    out.append(&digits[at..])
}

/// Appends exactly `digits` lower-case hexadecimal digits, or changes nothing.
pub fn push_hex(out: &mut Bytes, value: u64, digits: u32) -> Result<(), NoMemory>
    requires some { 1 ≤ digits }
    requires few { digits ≤ 16 }
    requires fits { value < 16 ^ digits }
    ensures ok { OnOk result (out.new ≡ out.old ++ hex_text digits value) }
    ensures err { OnErr result (out.new ≡ out.old) }
{
    let mut text = [0u8; 16];
    for i in 0..digits {
        let digit = ((value >> (4 * (digits - 1 - i))) % 16) as u8;
        text[i as usize] = hex_digit(digit);
    }
    out.append(&text[..digits as usize])
}

/// Appends a place: its line, a colon and its column.
#[tactic(auto, unfolding(crate::specs::Numbers::pos_text))]
pub fn push_pos(out: &mut Bytes, pos: Pos) -> Result<(), NoMemory>
    ensures { OnOk result (out.new ≡ out.old ++ pos_text pos) }
{
    push_decimal(out, u64::from(pos.line))?;
    out.push(b':')?;
    push_decimal(out, u64::from(pos.col))
}

fn hex_digit(digit: u8) -> u8
    requires { digit < 16 }
    ensures { result ≡ digit_char digit }
{
    if digit < 10 {
        b'0' + digit
    } else {
        b'a' - 10 + digit
    }
}
