ghost use Rattle.std.specs.Prelude.{◌≡◌, ◌<◌, ◌/◌, ◌%◌, ◌^◌, ◌*◌, ◌*ℤ◌, pos};
ghost use Rattle.tm_table.specs.Words.{low as low_bits};
ghost use Rattle.tm_table.specs.Row.{quotient as quotient_of, remainder as remainder_of};
ghost use Rattle.tm_table.specs.Row.{IsWidth, sign_extended, shifted_down, signed64, signed32, signed_lt};
ghost use Rattle.tm_table.specs.Row.{flag as flag_of, loaded as loaded_value};

/// Whether `a` is less than `b`, both with a sign.
pub fn less(a: u64, b: u64) -> bool
    ensures { result ≡ signed_lt a b }
{
    a.cast_signed() < b.cast_signed()
}

/// 1 where it holds, else 0.
pub fn flag(holds: bool) -> u64
    ensures { result ≡ flag_of holds }
{
    u64::from(holds)
}

/// The number, shifted right with copies of its sign.
pub fn shift_down(n: u64, by: u64) -> u64
    requires { by < 64 }
    ensures { result ≡ shifted_down by (signed64 n) }
{
    (n.cast_signed() >> by).cast_unsigned()
}

/// The low 32 bits, shifted right with copies of their sign.
pub fn shift_word_down(n: u64, by: u64) -> u64
    requires { by < 32 }
    ensures { result ≡ shifted_down by (signed32 n) }
{
    (word(n).cast_signed() >> by).cast_unsigned()
}

/// The low 8 bits, with their sign.
fn byte(n: u64) -> u64
    ensures { result ≡ sign_extended 7 n }
{
    let low = (n & 0xff) as u8;
    i64::from(low.cast_signed()).cast_unsigned()
}

/// The low 16 bits, with their sign.
fn half(n: u64) -> u64
    ensures { result ≡ sign_extended 15 n }
{
    let low = (n & 0xffff) as u16;
    i64::from(low.cast_signed()).cast_unsigned()
}

/// The low 32 bits, with their sign.
pub fn word(n: u64) -> u64
    ensures { result ≡ sign_extended 31 n }
{
    let low = (n & 0xffff_ffff) as u32;
    i64::from(low.cast_signed()).cast_unsigned()
}

/// What a load of so many bytes puts into its register, of the bytes read.
pub fn loaded(with_sign: bool, width: u8, read: u64) -> u64
    requires { IsWidth width }
    ensures { result ≡ loaded_value with_sign width read }
{
    if !with_sign {
        return read;
    }
    match width {
        1 => byte(read),
        2 => half(read),
        4 => word(read),
        _ => read,
    }
}

/// The low bytes of a value.
pub fn low_bytes(value: u64, width: u8) -> u64
    requires { IsWidth width }
    ensures { result ≡ value % 2 ^ (8 * width) }
{
    match width {
        1 => value & 0xff,
        2 => value & 0xffff,
        4 => value & 0xffff_ffff,
        _ => value,
    }
}

/// The high 64 bits of a product, both numbers with a sign.
pub fn high_signed(a: u64, b: u64) -> u64
    ensures { result ≡ shifted_down 64 (signed64 a *ℤ signed64 b) }
{
    let product = i128::from(a.cast_signed()) * i128::from(b.cast_signed());
    ((product >> 64) as i64).cast_unsigned()
}

/// The high 64 bits of a product, the first number with a sign and the second without.
pub fn high_mixed(a: u64, b: u64) -> u64
    ensures { result ≡ shifted_down 64 (signed64 a *ℤ pos b) }
{
    let product = i128::from(a.cast_signed()) * i128::from(b);
    ((product >> 64) as i64).cast_unsigned()
}

/// The high 64 bits of a product, both numbers without a sign.
pub fn high_unsigned(a: u64, b: u64) -> u64
    ensures { result ≡ a * b / 2 ^ 64 }
{
    let product = u128::from(a) * u128::from(b);
    (product >> 64) as u64
}

/// The quotient towards zero, both numbers with a sign; all bits set where the second is 0.
pub fn quotient_signed(a: u64, b: u64) -> u64
    ensures { result ≡ low_bits 64 (quotient_of (signed64 a) (signed64 b)) }
{
    if b == 0 {
        return u64::MAX;
    }
    a.cast_signed()
        .wrapping_div(b.cast_signed())
        .cast_unsigned()
}

/// The quotient, both numbers without a sign; all bits set where the second is 0.
pub fn quotient_unsigned(a: u64, b: u64) -> u64
    ensures { result ≡ low_bits 64 (quotient_of (pos a) (pos b)) }
{
    if b == 0 {
        return u64::MAX;
    }
    a / b
}

/// What is left by that quotient, with the sign of the first number, which it is where the second is 0.
pub fn remainder_signed(a: u64, b: u64) -> u64
    ensures { result ≡ low_bits 64 (remainder_of (signed64 a) (signed64 b)) }
{
    if b == 0 {
        return a;
    }
    a.cast_signed()
        .wrapping_rem(b.cast_signed())
        .cast_unsigned()
}

/// What is left by the quotient without signs, and the first number where the second is 0.
pub fn remainder_unsigned(a: u64, b: u64) -> u64
    ensures { result ≡ low_bits 64 (remainder_of (pos a) (pos b)) }
{
    if b == 0 {
        return a;
    }
    a % b
}
