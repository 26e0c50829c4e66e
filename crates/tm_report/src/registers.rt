// The registers that aren't checked.
ghost use Rattle.std.specs.Prelude.{◌≡◌, ◌++◌, ◌∷◌, [], ◌<◌, OnOk, filter};
ghost use Rattle.std.specs.List.{flat_map};
ghost use Rattle.tm_report.specs.Listing.{is_unchecked as bit_is_clear, register_entries, register_entry};
ghost use Rattle.tm_report.specs.Listing.{unchecked_line};

use crate::entries::put_entries;
use std::alloc::Global;
use tm_base::{Bytes, NoMemory, push_decimal};

#[tactic(auto, unfolding(crate::specs::Listing::is_unchecked))]
fn is_unchecked(mask: u32, r: u32) -> bool
    requires { r < 32 }
    ensures { result ≡ bit_is_clear mask r }
{
    mask >> r & 1 == 0
}

// Puts the entry of x r where it isn't checked.
#[tactic(auto, unfolding(crate::specs::Listing::register_entry))]
fn put_register(out: &mut Bytes, mask: u32, r: u32) -> Result<(), NoMemory>
    requires { r < 32 }
    ensures { OnOk result (out.new ≡ out.old ++ flat_map register_entry (filter (bit_is_clear mask) (r ∷ []))) }
{
    if !is_unchecked(mask, r) {
        return Ok(());
    }
    out.append(b" x")?;
    push_decimal(out, u64::from(r))
}

fn put_registers(out: &mut Bytes, mask: u32) -> Result<(), NoMemory>
    ensures { OnOk result (out.new ≡ out.old ++ register_entries mask) }
{
    for r in 1..31 {
        put_register(out, mask, r)?;
    }
    Ok(())
}

/// Puts the line of the registers that a hart's mask leaves out.
#[tactic(auto, unfolding(crate::specs::Listing::unchecked_line))]
pub fn put_unchecked(alloc: Global, out: &mut Bytes, mask: u32) -> Result<(), NoMemory>
    ensures { OnOk result (out.new ≡ out.old ++ unchecked_line mask) }
{
    let mut entries = Bytes::new(alloc);
    put_registers(&mut entries, mask)?;
    out.append(b"unchecked")?;
    put_entries(out, entries.as_slice())
}
