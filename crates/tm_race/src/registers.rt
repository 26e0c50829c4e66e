// The registers of a hart that are checked, as a word.
ghost use Rattle.std.specs.Prelude.{◌≡◌, ◌<◌, ◌≤◌, ◌↔◌, ◌⊎◌, ℕ};
ghost use Rattle.tm_plane.specs.Plane.{Bit};

// A word with bit r beside its own, if register r isn't held.
fn with_free(word: u32, held: u64, r: u32) -> u32
    requires { r < 32 }
    ensures { (j : ℕ) → Bit result j ↔ (((j ≡ r) × (Bit held r → ⊥)) ⊎ Bit word j) }
{
    if held >> r & 1 == 1 {
        return word;
    }
    word | 1 << r
}

/// One bit for each register: set for those of x1 to x30 that aren't held.
pub fn register_word(held: u64) -> u32
    ensures { (r : ℕ) → Bit result r ↔ ((1 ≤ r) × (r ≤ 30) × (Bit held r → ⊥)) }
{
    let mut word = 0;
    for r in 1..31 {
        word = with_free(word, held, r);
    }
    word
}
