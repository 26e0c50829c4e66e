// Words of 64 bits, as sets of numbers below 64.
ghost use Rattle.std.specs.Prelude.{◌≡◌, ◌<◌, ◌≤◌, ◌+◌, ℕ, ◌↔◌, ◌⊎◌, IsTrue};
ghost use Rattle.tm_plane.specs.Plane.{Bit, Overwritten};

/// A word with bit `k`, below 64, beside its own.
pub fn with_bit(word: u64, k: u32) -> u64
    requires { k < 64 }
    ensures { (j : ℕ) → Bit result j ↔ ((j ≡ k) ⊎ Bit word j) }
{
    word | 1 << k
}

/// The word of `width` bits from bit `low` on.
pub fn run(low: u32, width: u8) -> u64
    requires { low + width ≤ 64 }
    ensures { (j : ℕ) → Bit result j ↔ ((low ≤ j) × (j < low + width)) }
{
    let mut word = 0;
    for k in low..low + u32::from(width) {
        word = with_bit(word, k);
    }
    word
}

/// What `held` becomes where `writes` are written: they come in where `marks` says so, and else they go, but where
/// `covered` says that the write may be skipped.
pub fn overwritten(held: u64, writes: u64, marks: bool, covered: bool) -> u64
    ensures { (r : ℕ) → Bit result r ↔ Overwritten (Bit writes r) (Bit held r) marks covered }
{
    let kept = if covered { held } else { held & !writes };
    if marks { kept | writes } else { kept }
}

/// The bits of the first of two words alone.
pub fn word_without(x: u64, y: u64) -> u64
    ensures { (r : ℕ) → Bit result r ↔ (Bit x r × (Bit y r → ⊥)) }
{
    x & !y
}

/// Whether two words have a bit in common.
pub fn meets(held: u64, reads: u64) -> bool
    ensures { IsTrue result ↔ ((s : ℕ) × Bit reads s × Bit held s) }
{
    held & reads != 0
}
