// The last write of each byte by one hart.
ghost use Rattle.std.specs.Prelude.{◌≡◌, ◌==◌, ◌<◌, ℕ, None, Some, IfOk, IfSome, OnOk, if◌then◌else◌};
ghost use Rattle.std.specs.BTreeMap.{get};
ghost use Rattle.std.specs.Ordering.{nat_cmp};
ghost use Rattle.tm_owing.specs.Writes.{HasNothing, IsPut, away_at, last_at, place_of as place_in};

use std::alloc::Global;
use std::collections::BTreeMap;
use tm_base::NoMemory;
use tm_plan_map::{PRIVATE_BYTES, WINDOWS_ADDRESS, WINDOWS_BYTES};

/// A write of a byte: the phase in which it stood, and what was written.
#[derive(Clone, Copy)]
pub struct Latest {
    pub phase: u64,
    pub value: u8,
}

/// The last write of each byte by a hart: those to its private area, where nearly all of them go, and to the windows in
/// lists by their places, and all others in a map.
#[derive(Drop)]
pub struct Writes {
    pub from: u64,
    pub near: Vec<Option<Latest>>,
    pub shared: Vec<Option<Latest>>,
    pub far: BTreeMap<u64, Latest>,
}

impl Writes {
    /// None yet, of a hart whose private area begins there.
    pub fn none(alloc: Global, from: u64) -> Result<Writes, NoMemory>
        ensures { IfOk result (λ w. (b : ℕ) → last_at w b ≡ None) }
    {
        let near = nothing(alloc, PRIVATE_BYTES)?;
        let shared = nothing(alloc, WINDOWS_BYTES)?;
        Ok(Writes {
            from,
            near,
            shared,
            far: nothing_far(alloc),
        })
    }

    /// The last write of a byte.
    pub fn last(&self, b: u64) -> Option<Latest>
        ensures { result ≡ last_at self.now b }
    {
        match place_of(self.from, self.near.len(), b) {
            Some(place) => self.near[place],
            None => last_away(&self.shared, &self.far, b),
        }
    }

    /// Keeps a write of a byte, which is the last one now.
    pub fn put(&mut self, b: u64, write: Latest) -> Result<(), NoMemory>
        ensures { OnOk result ((k : ℕ) →
            last_at self.new k ≡ (if k == b then Some write else last_at self.old k)) }
    {
        match place_of(self.from, self.near.len(), b) {
            Some(place) => {
                self.near[place] = Some(write);
                Ok(())
            }
            None => put_away(&mut self.shared, &mut self.far, b, write),
        }
    }
}

/// The last write of a byte outside of the private area.
fn last_away(shared: &Vec<Option<Latest>>, far: &BTreeMap<u64, Latest>, b: u64) -> Option<Latest>
    ensures { result ≡ away_at shared.now.items far.now b }
{
    match place_of(WINDOWS_ADDRESS, shared.len(), b) {
        Some(place) => shared[place],
        None => far_of(far, b),
    }
}

/// Keeps a write of a byte outside of the private area.
fn put_away(
    shared: &mut Vec<Option<Latest>>,
    far: &mut BTreeMap<u64, Latest>,
    b: u64,
    write: Latest,
) -> Result<(), NoMemory>
    ensures { OnOk result ((k : ℕ) → away_at shared.new.items far.new k
        ≡ (if k == b then Some write else away_at shared.old.items far.old k)) }
{
    match place_of(WINDOWS_ADDRESS, shared.len(), b) {
        Some(place) => {
            shared[place] = Some(write);
            Ok(())
        }
        None => put_far(far, b, write),
    }
}

/// A list of so many places that has no write.
fn nothing(alloc: Global, n: u64) -> Result<Vec<Option<Latest>>, NoMemory>
    ensures { IfOk result (λ v. HasNothing v.items) }
{
    let mut near = match Vec::with_capacity(alloc, n as usize) {
        Ok(near) => near,
        Err(_) => return Err(NoMemory),
    };
    for i in 0..n {
        match near.push(None) {
            Ok(()) => {}
            Err(_) => return Err(NoMemory),
        }
    }
    Ok(near)
}

/// A map that has no write.
fn nothing_far(alloc: Global) -> BTreeMap<u64, Latest>
    ensures { (b : ℕ) → get nat_cmp result b ≡ None }
{
    BTreeMap::new(alloc)
}

/// The place of a byte in an area of so many bytes, if it lies there.
#[tactic(auto, unfolding(crate::specs::Writes::place_of))]
fn place_of(from: u64, len: usize, b: u64) -> Option<usize>
    ensures is { result ≡ place_in from len b }
    ensures within { IfSome result (λ i. i < len) }
{
    if b < from {
        return None;
    }
    let place = b - from;
    if place >= len as u64 {
        return None;
    }
    Some(place as usize)
}

/// The write that a map has of a byte.
fn far_of(far: &BTreeMap<u64, Latest>, b: u64) -> Option<Latest>
    ensures { result ≡ get nat_cmp far.now b }
{
    far.get(&b).copied()
}

/// Keeps a write in a map.
fn put_far(far: &mut BTreeMap<u64, Latest>, b: u64, write: Latest) -> Result<(), NoMemory>
    ensures { OnOk result (IsPut b write far.old far.new) }
{
    match far.insert(b, write) {
        Ok(_) => Ok(()),
        Err(_) => Err(NoMemory),
    }
}
