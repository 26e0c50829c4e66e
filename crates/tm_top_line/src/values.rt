// The values of faults, as they are told.
ghost use Rattle.std.specs.Prelude.{◌≡◌, ◌++◌, ◌<◌, ◌^◌, OnOk};
ghost use Rattle.std.specs.Fmt.{decimal};
ghost use Rattle.tm_top_line.specs.Inputs.{with_value, addr_text, shown_key, signed_text, shown as shown_as};

use tm_base::{Bytes, NoMemory, push_decimal, push_hex};

/// A variant's name and its one value.
#[tactic(auto, unfolding(crate::specs::Inputs::with_value))]
pub fn put_value(out: &mut Bytes, name: &[u8], value: u64) -> Result<(), NoMemory>
    ensures { OnOk result (out.new ≡ out.old ++ with_value name.now value) }
{
    out.append(name)?;
    out.push(b' ')?;
    push_decimal(out, value)
}

/// A number of any size, in decimal.
#[tactic(auto, using(std::proofs::lemmas::Fmt::decimal_step_wide, std::proofs::lemmas::Fmt::decimal_digit, std::proofs::lemmas::Grind::common_steps))]
fn put_decimal(out: &mut Bytes, value: u128) -> Result<(), NoMemory>
    ensures { OnOk result (out.new ≡ out.old ++ decimal value) }
{
    if value < 10 {
        return out.push(b'0' + value as u8);
    }
    put_decimal(out, value / 10)?;
    out.push(b'0' + (value % 10) as u8)
}

/// A number in decimal, with `-` where it is negative.
#[tactic(auto, unfolding(crate::specs::Inputs::signed_text))]
pub fn put_signed(out: &mut Bytes, value: &i128) -> Result<(), NoMemory>
    ensures { OnOk result (out.new ≡ out.old ++ signed_text value.now) }
{
    if *value < 0 {
        out.push(b'-')?;
    }
    put_decimal(out, value.unsigned_abs())
}

/// An address in 8 hexadecimal digits, or 16 from 2^32 on.
#[tactic(auto, unfolding(crate::specs::Inputs::addr_text))]
pub fn put_addr(out: &mut Bytes, addr: u64) -> Result<(), NoMemory>
    ensures { OnOk result (out.new ≡ out.old ++ addr_text addr) }
{
    out.append(b"0x")?;
    if addr < 0x1_0000_0000 {
        push_hex(out, addr, 8)
    } else {
        push_hex(out, addr, 16)
    }
}

/// A key, with `?` for each byte that isn't visible.
#[tactic(auto, unfolding(crate::specs::Inputs::shown_key))]
pub fn put_key(out: &mut Bytes, key: &[u8]) -> Result<(), NoMemory>
    ensures { OnOk result (out.new ≡ out.old ++ shown_key key.now) }
{
    for byte in key {
        out.push(shown(*byte))?;
    }
    Ok(())
}

fn shown(byte: u8) -> u8
    ensures { result ≡ shown_as byte }
{
    if 0x21 <= byte && byte <= 0x7E {
        byte
    } else {
        b'?'
    }
}
