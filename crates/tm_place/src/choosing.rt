ghost use Rattle.std.specs.Prelude.{◌≡◌, ◌<◌, ◌≤◌};
ghost use Rattle.tm_place.specs.Numbers as numbers;

/// One of the numbers below `n`, by a word. `n` is at least 1.
pub fn choice(word: u32, n: u32) -> u32
    requires { 1 ≤ n }
    ensures value { result ≡ numbers.choice word n }
    ensures below { result < n }
{
    ((u64::from(word) * u64::from(n)) >> 32) as u32
}
