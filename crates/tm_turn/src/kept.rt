// What the lock asks of the value under it.

/// A value that keeps a history, a list of entries of which each was made by one seat, beside a part that never
/// changes.
pub trait Kept: Drop {
    ghost use Rattle.std.specs.Prelude.{◌≡◌, ℕ, ◌<◌, ◌^◌, List, length};

    /// What the history is a list of.
    type Entry;

    /// What never changes of a value. Contracts speak of it, and no value of it has to be made.
    type Fixed;

    /// The entries, the oldest first.
    ghost history: { Self → List Self.Entry };

    /// The number of the seat that made an entry.
    ghost maker: { Self.Entry → ℕ };

    /// The part that never changes.
    ghost fixed: { Self → Self.Fixed };

    /// How many entries the history has. It takes no memory.
    fn entries(&self) -> u64
        requires { length (history self.now) < 2 ^ 64 }
        ensures { result ≡ length (history self.now) };
}
