// The words that a seed draws.
ghost use Rattle.std.specs.Prelude.{◌≡◌, ◌<◌, ◌≤◌, ◌+◌, ◌*◌, ◌++◌, ℕ, List, length, replicate, slice_index};
ghost use Rattle.std.specs.Int.{w64, to_le_bytes};
ghost use Rattle.rand_chacha.specs.ChaCha.{key_of};
ghost use Rattle.tm_place.specs.Draws as drawn;
ghost use Rattle.tm_place.specs.declared.drawing.TheConstants.{SLOT_WORDS};

use crate::choosing::choice;
use rand_chacha::ChaCha8Rng;
use rand_core::SeedableRng;
use rand_core::utils::NextWord;
use std::marker::Model;
use tm_base::CASE_ROOM;

/// The words of a slot.
pub const SLOT_WORDS: usize = 16;

/// The slots of a stream of words.
pub const STREAM_SLOTS: u32 = 1024;

/// The streams of words of a case: one for each hart, and two that belong to no hart.
pub const CASE_STREAMS: u64 = 64;

/// The stream of a case of which hot lines are drawn.
pub const HOT_STREAM: u32 = 62;

/// The stream of a case of which the windows' first dwords are drawn.
pub const FIRST_STREAM: u32 = 63;

/// The 16 words that a seed draws for one slot. A contract sees the list of them.
#[derive(Drop)]
pub struct Draws {
    words: [u32; SLOT_WORDS],
}

impl Model for Draws {
    ghost Value = { List ℕ };

    ghost view = { λ d. d.words };

    ghost invariant = { λ d. length d.words ≡ SLOT_WORDS };
}

impl Draws {
    /// The words for slot `i`, below 1024, of hart `h`, below 64, in case `c`, below 64.
    pub fn of(seed: u64, c: u32, h: u32, i: u32) -> Self
        requires case { c < CASE_ROOM }
        requires hart { h < CASE_STREAMS }
        requires slot { i < STREAM_SLOTS }
        ensures { result ≡ drawn.slot_draws seed c h i }
    {
        let mut rng = stream_at(seed, c, h, i, 0);
        let mut words = [0; SLOT_WORDS];
        for d in 0..SLOT_WORDS {
            words[d] = rng.next_word();
        }
        Draws { words }
    }

    /// Word `d`, below 16.
    pub fn word(&self, d: usize) -> u32
        requires { d < SLOT_WORDS }
        ensures { result ≡ slice_index self.now d }
    {
        self.words[d]
    }

    /// One of the numbers below `n`, by word `d`, below 16. `n` is at least 1.
    pub fn pick(&self, d: usize, n: u32) -> u32
        requires word { d < SLOT_WORDS }
        requires some { 1 ≤ n }
        ensures value { result ≡ drawn.pick self.now d n }
        ensures below { result < n }
    {
        choice(self.word(d), n)
    }
}

/// Word `d`, below 16, that a seed draws for slot `i`, below 1024, of hart `h`, below 64, in case `c`, below 64.
/// `Draws` has all 16 at once.
#[tactic(auto, unfolding(crate::specs::Draws::draw))]
pub fn draw(seed: u64, c: u32, h: u32, i: u32, d: u32) -> u32
    requires case { c < CASE_ROOM }
    requires hart { h < CASE_STREAMS }
    requires slot { i < STREAM_SLOTS }
    requires word { d < SLOT_WORDS }
    ensures { result ≡ drawn.draw seed c h i d }
{
    let mut rng = stream_at(seed, c, h, i, d);
    rng.next_word()
}

// The generator before word d of slot i of hart h in case c.
fn stream_at(seed: u64, c: u32, h: u32, i: u32, d: u32) -> ChaCha8Rng
    requires slot { i < STREAM_SLOTS }
    requires word { d < SLOT_WORDS }
    ensures { result ≡ record { key = drawn.key seed; stream = CASE_STREAMS * c + h; word_pos = SLOT_WORDS * i + d } }
{
    let mut rng = ChaCha8Rng::from_seed(key_bytes(seed));
    rng.set_stream(CASE_STREAMS * u64::from(c) + u64::from(h));
    rng.set_word_pos(SLOT_WORDS as u128 * u128::from(i) + u128::from(d));
    rng
}

// The 8 bytes of a seed, and 24 zeros.
fn key_bytes(seed: u64) -> [u8; 32]
    ensures { result ≡ to_le_bytes w64 seed ++ replicate 24 0 }
{
    let mut key = [0; 32];
    key[..8].copy_from_slice(&seed.to_le_bytes());
    key
}
