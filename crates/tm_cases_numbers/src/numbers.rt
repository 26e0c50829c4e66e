// Numbers, read and printed.
use tm_base::{Bytes, NoMemory, push_decimal, push_hex, read_number};
use tm_cases_book::{State, number, put, small, words_of};

/// The number that a text spells, or its fault.
pub fn read(state: &State, rest: &str, out: &mut Bytes) -> Result<(), NoMemory> {
    let text = state.texts.read(rest)?;
    match read_number(text.as_slice()) {
        Ok(value) => push_decimal(out, value),
        Err(fault) => put(out, format!(in state.alloc; "{fault:?}")),
    }
}

/// The decimal digits of a number.
pub fn decimal(rest: &str, out: &mut Bytes) -> Result<(), NoMemory> {
    push_decimal(out, number(rest))
}

/// The hexadecimal digits of a number, with so many digits.
pub fn hexadecimal(rest: &str, out: &mut Bytes) -> Result<(), NoMemory> {
    let [value, digits, ..] = words_of(rest);
    let value = number(value);
    match small(digits) {
        1 => push_hex(out, value % 16, 1),
        2 => push_hex(out, value % 256, 2),
        4 => push_hex(out, value % 65_536, 4),
        8 => push_hex(out, value % 4_294_967_296, 8),
        _ => push_hex(out, value, 16),
    }
}
