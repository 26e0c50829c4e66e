// How answers are written.
ghost use Rattle.std.specs.Prelude.{◌≡◌, ◌++◌, IfOk, OnOk};
ghost use Rattle.std.specs.String.{string_bytes};
ghost use Rattle.tm_cases_book.specs.Texts.{shown, shown_byte};

use std::alloc::AllocError;
use tm_base::{Bytes, NoMemory, push_hex};

/// Appends bytes in the form of a file of cases.
#[tactic(auto, unfolding(crate::specs::Texts::shown))]
pub fn put_text(out: &mut Bytes, bytes: &[u8]) -> Result<(), NoMemory>
    ensures { OnOk result (out.new ≡ out.old ++ shown bytes.now) }
{
    for byte in bytes {
        put_byte(out, *byte)?;
    }
    Ok(())
}

fn put_byte(out: &mut Bytes, byte: u8) -> Result<(), NoMemory>
    ensures { OnOk result (out.new ≡ out.old ++ shown_byte byte) }
{
    if byte == b'\n' {
        return out.append(b"\\n");
    }
    if byte == b'\t' {
        return out.append(b"\\t");
    }
    if byte == b'\r' {
        return out.append(b"\\r");
    }
    if byte == b'\\' {
        return out.append(b"\\\\");
    }
    if 0x20 <= byte && byte <= 0x7E {
        return out.push(byte);
    }
    out.append(b"\\x")?;
    push_hex(out, u64::from(byte), 2)
}

/// Appends what was formatted.
pub fn put(out: &mut Bytes, text: Result<String, AllocError>) -> Result<(), NoMemory>
    ensures { OnOk result (IfOk text (λ s. out.new ≡ out.old ++ string_bytes s)) }
{
    match text {
        Ok(text) => out.append(text.as_bytes()),
        Err(_) => Err(NoMemory),
    }
}
