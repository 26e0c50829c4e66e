// Which bytes a hart's stores cover, executed or not.
ghost use Rattle.std.specs.Prelude.{◌≡◌, ◌<◌, ◌||◌, ℕ, All, length, slice_get, Some};
ghost use Rattle.tm_plan_map.specs.Slots.{stores_to};
ghost use Rattle.tm_world.specs.Writers.{is_store_to, some_store_to};
ghost use Rattle.tm_plan_cases.specs.declared.cases.Stream.{Stream as TheStream};
ghost use Rattle.tm_plane.specs.Plane.{in_plane};
ghost use Rattle.tm_race_walk.specs.Slots.{IsStore, IsStoreWord};
ghost use Rattle.tm_race_walk.specs.Shapes.{IsOfShaped};

use tm_plan_cases::{Case, Stream};
use tm_plan_map::{slot_addr, store_width};
use tm_plane::{PLANE_WORDS, Plane, has, put};
use tm_table::{Instr, decode};

// Puts the bytes that a store covers into the plane.
#[tactic(auto, unfolding(tm_plan_map::specs::Slots::stores_to))]
fn put_instr(plane: &mut Plane, i: Instr)
    requires { IsStore i }
    ensures { (b : ℕ) → in_plane plane.new b ≡ (in_plane plane.old b || stores_to b i) }
{
    let width = store_width(i.op);
    if width > 0 {
        put(plane, slot_addr(i), width);
    }
}

// Puts the bytes that a word stores to into the plane.
#[tactic(auto, unfolding(tm_plan_map::specs::Slots::instr_of))]
fn put_word(plane: &mut Plane, word: u32)
    requires { IsStoreWord word }
    ensures { (b : ℕ) → in_plane plane.new b ≡ (in_plane plane.old b || is_store_to b word) }
{
    if let Some(i) = decode(word) {
        put_instr(plane, i);
    }
}

// The bytes that the words of a stream store to.
fn words_plane(words: &[u32]) -> Plane
    requires { All IsStoreWord words.now }
    ensures { (b : ℕ) (s : TheStream) → s.words ≡ words.now → in_plane result b ≡ some_store_to b (Some s) }
{
    let mut plane = [0u64; PLANE_WORDS];
    for word in words {
        put_word(&mut plane, *word);
    }
    plane
}

// Hart h's stream.
pub fn stream_of(case: &Case, h: u32) -> &Stream
    requires { h < length case.now.streams }
    ensures { slice_get case.now.streams h ≡ Some result.now }
{
    &case.streams.as_slice()[h as usize]
}

/// The bytes to which hart `h` has a store slot, executed or not: one bit for each byte of the windows. `h` is below
/// the number of streams, and the case is one of shaped cases.
pub fn store_plane(case: &Case, h: u32) -> Plane
    requires case { IsOfShaped case.now }
    requires hart { h < length case.now.streams }
    ensures { (b : ℕ) → in_plane result b ≡ some_store_to b (slice_get case.now.streams h) }
{
    words_plane(stream_of(case, h).words.as_slice())
}

/// Whether hart `h` has a store slot that covers `addr`, executed or not. `h` is below the number of streams, and
/// the case is one of shaped cases.
pub fn may_write(case: &Case, h: u32, addr: u64) -> bool
    requires case { IsOfShaped case.now }
    requires hart { h < length case.now.streams }
    ensures { result ≡ some_store_to addr (slice_get case.now.streams h) }
{
    let plane = store_plane(case, h);
    has(&plane, addr)
}
