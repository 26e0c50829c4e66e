// The dwords of the windows of which a byte isn't checked.
ghost use Rattle.std.specs.Prelude.{◌≡◌, ◌++◌, ◌*◌, ◌+◌, ◌<◌, ◌≤◌, ◌^◌, OnOk, All, ◌∷◌, [], filter, length};
ghost use Rattle.std.specs.List.{flat_map};
ghost use Rattle.tm_plan_map.specs.Map.{windows_base};
ghost use Rattle.tm_plan_cases.specs.Shaped.{IsShapedWindow};
ghost use Rattle.tm_report.specs.Listing.{bytes_line, dword_bits as bits_at, dword_entries, dword_entry};
ghost use Rattle.tm_report.specs.Listing.{is_listed as listed, unchecked_bits as bits_of};

use crate::entries::put_entries;
use std::alloc::Global;
use tm_base::{Bytes, NoMemory, push_hex};
use tm_plan_cases::Cases;
use tm_plan_map::window_base;
use tm_plane::is_declared;

// How many dwords the three windows have.
const DWORDS: usize = 768;

// One bit for each byte, from the lowest on, which is set where the byte is 0.
fn unchecked_bits(bytes: &[u8]) -> u64
    requires { length bytes.now ≤ 8 }
    ensures bits { result ≡ bits_of bytes.now }
    ensures small { result < 2 ^ length bytes.now }
{
    let [byte, more @ ..] = bytes else {
        return 0;
    };
    let above = 2 * unchecked_bits(more);
    if *byte == 0 { above + 1 } else { above }
}

// The bits of a dword by its number, counted over all windows.
#[tactic(auto, unfolding(crate::specs::Listing::dword_bits))]
fn dword_bits(bytes: &[u8], number: usize) -> u64
    requires bytes { length bytes.now ≡ 6144 }
    requires number { number < 768 }
    ensures bits { result ≡ bits_at bytes.now (windows_base + 8 * number) }
    ensures small { result < 256 }
{
    let place = 8 * number;
    unchecked_bits(&bytes[place..place + 8])
}

// The address of a dword by its number.
#[tactic(auto, unfolding(tm_plan_map::specs::Map::window_at, tm_plan_map::specs::Map::windows_base))]
fn address(number: usize) -> u64
    requires { number < 768 }
    ensures address { result ≡ windows_base + 8 * number }
    ensures small { result < 16 ^ 8 }
{
    window_base(0) + 8 * number as u64
}

#[tactic(auto, unfolding(crate::specs::Listing::is_listed))]
fn is_listed(cases: &Cases, bytes: &[u8], number: usize) -> bool
    requires windows { All (IsShapedWindow cases.now.line) cases.now.windows }
    requires bytes { length bytes.now ≡ 6144 }
    requires number { number < 768 }
    ensures { result ≡ listed cases.now bytes.now (windows_base + 8 * number) }
{
    is_declared(cases, address(number)) && dword_bits(bytes, number) != 0
}

// Puts the entry of the dword of this number where it is declared and has an unchecked byte.
#[tactic(auto, unfolding(crate::specs::Listing::dword_entry))]
fn put_dword(out: &mut Bytes, cases: &Cases, bytes: &[u8], number: usize) -> Result<(), NoMemory>
    requires windows { All (IsShapedWindow cases.now.line) cases.now.windows }
    requires bytes { length bytes.now ≡ 6144 }
    requires number { number < 768 }
    ensures { OnOk result (out.new ≡ out.old ++ flat_map (dword_entry bytes.now)
        (filter (listed cases.now bytes.now) ((windows_base + 8 * number) ∷ []))) }
{
    if !is_listed(cases, bytes, number) {
        return Ok(());
    }
    out.append(b" 0x")?;
    push_hex(out, address(number), 8)?;
    out.push(b':')?;
    push_hex(out, dword_bits(bytes, number), 2)
}

fn put_dwords(out: &mut Bytes, cases: &Cases, bytes: &[u8]) -> Result<(), NoMemory>
    requires windows { All (IsShapedWindow cases.now.line) cases.now.windows }
    requires bytes { length bytes.now ≡ 6144 }
    ensures { OnOk result (out.new ≡ out.old ++ dword_entries cases.now bytes.now) }
{
    for number in 0..DWORDS {
        put_dword(out, cases, bytes, number)?;
    }
    Ok(())
}

/// Puts the line of the declared dwords that the mask bytes of a case leave out, whole or in part.
#[tactic(auto, unfolding(crate::specs::Listing::bytes_line))]
pub fn put_bytes(
    alloc: Global,
    out: &mut Bytes,
    cases: &Cases,
    bytes: &[u8],
) -> Result<(), NoMemory>
    requires windows { All (IsShapedWindow cases.now.line) cases.now.windows }
    requires bytes { length bytes.now ≡ 6144 }
    ensures { OnOk result (out.new ≡ out.old ++ bytes_line cases.now bytes.now) }
{
    let mut entries = Bytes::new(alloc);
    put_dwords(&mut entries, cases, bytes)?;
    out.append(b"bytes")?;
    put_entries(out, entries.as_slice())
}
